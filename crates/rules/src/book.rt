// The book: every rule of a line, part by part, each part once.
use crate::table::Table;
use std::marker::Model;

pub mod basics;
pub mod entering;

/// Up to 256 nodes at places from 0 in the order of their entry. Operands lie at lower places than
/// their node, signals are below 64, and no two nodes are equal. The rules are in docs/RULES.md.
#[derive(Drop)]
pub struct Book {
    table: Table,
}

// Contracts see a book as the list of its nodes.
impl Model for Book {
    ghost use Rattle.std.specs.Prelude.{◌≡◌, List, length};
    ghost use Rattle.rules.specs.Tables.{listed, SoundBook};
    ghost use Rattle.rules.specs.declared.node.Node.{Node};

    ghost Value = { List Node };

    ghost view = { λ b. listed b.table };

    ghost invariant = { λ b. (b.table.count ≡ length (listed b.table)) × SoundBook (listed b.table) };
}

// Rules: the book that they are entered into, and the reading of a rule file.
#![tactic(auto)]

pub mod book;
pub mod command;
pub mod decode;
pub mod fault;
pub mod node;
pub mod reading;
pub mod table;

#[cfg(test)]
mod tests {
    use crate::book::Book;
    use crate::command::Command;
    use crate::fault::EnterFault;
    use crate::node::{Node, Place, UnaryOp};
    use crate::reading::{FileFault, ReadFault, read};
    use std::test::Fail;

    #[test]
    fn equal_nodes_share_a_place(rt: HostRuntime) {
        let mut book = Book::new();
        assert_eq!(rt; book.enter(&[0x10, 0, 7]), Ok((Place { index: 0 }, 3)));
        assert_eq!(rt;
            book.enter(&[0x11, 0, 0, 0x00]),
            Ok((Place { index: 1 }, 3))
        );
        assert_eq!(rt; book.enter(&[0x10, 0, 7]), Ok((Place { index: 0 }, 3)));
        assert_eq!(rt; book.len(), 2);
        let not = Node::Unary(UnaryOp::Not, Place { index: 0 });
        assert_eq!(rt; book.nodes(), [Node::Signal(7), not].as_slice());
    }

    #[test]
    fn refusals_of_enter(rt: HostRuntime) {
        let mut book = Book::new();
        assert_eq!(rt; book.enter(&[0x02]), Err(EnterFault::UnknownCommand(2)));
        assert_eq!(rt; book.enter(&[]), Err(EnterFault::Truncated));
        assert_eq!(rt; book.enter(&[0x10, 0]), Err(EnterFault::Truncated));
        assert_eq!(rt;
            book.enter(&[0x10, 0, 64]),
            Err(EnterFault::SignalAbove(64))
        );
        assert_eq!(rt; book.enter(&[0x10, 0, 63]), Ok((Place { index: 0 }, 3)));
        assert_eq!(rt;
            book.enter(&[0x25, 0, 0, 0, 1]),
            Err(EnterFault::NotEntered(Place { index: 1 }))
        );
    }

    #[test]
    fn reading_stops_at_the_refused_command(rt: HostRuntime) -> Result<(), Fail> {
        let mut book = Book::new();
        match read(&mut book, &[0x10, 0, 1, 0x11, 0, 9, 0x01]) {
            Err(ReadFault::Command(fault)) => {
                assert_eq!(rt; fault.start, 3);
                assert_eq!(rt; fault.rest.len(), 4);
                assert_eq!(rt; book.len(), 1);
                assert_eq!(rt;
                    FileFault::from(ReadFault::Command(fault)),
                    FileFault::Command {
                        start: 3,
                        fault: EnterFault::NotEntered(Place { index: 9 }),
                    }
                );
                Ok(())
            }
            _ => Err(Fail::new("the third node is not there")),
        }
    }

    #[test]
    fn causes_by_their_words(rt: HostRuntime) -> Result<(), Fail> {
        let heap = rt.alloc();
        let fault = Command::try_from(0x0a);
        assert_eq!(rt; fault, Err(EnterFault::UnknownCommand(10)));
        let cause = format!(in heap; "{}", EnterFault::UnknownCommand(10))?;
        assert_eq!(rt; cause.as_str(), "no command begins with the byte 0a");
        let cause = format!(in heap; "{}", EnterFault::NotEntered(Place { index: 300 }))?;
        assert_eq!(rt; cause.as_str(), "there is no node yet at place 300");
        Ok(())
    }
}

// The border cases of the calls, each told in a line.
use judging::fault::JudgeFault;
use judging::judge::judge;
use models::packed::Packed;
use rules::book::Book;
use rules::node::Place;
use rules::reading::read;
use std::alloc::{AllocError, Global};
use std::io;

// The bytes of commands that a rule file begins with: a signal and the next scan.
const SIGNAL: u8 = 0x10;

const NEXT: u8 = 0x12;

// Reads a rule file into a book, and says what comes of it.
fn tell_read(rt: &HostRuntime, what: &str, book: &mut Book, file: &[u8]) -> io::Result<()> {
    match read(book, file) {
        Ok(place) => println!(rt; "{what}: the rule at place {}", place.index),
        Err(fault) => println!(rt; "{what}: refused {}", fault.number()),
    }
}

fn tell_signals(rt: &HostRuntime) -> io::Result<()> {
    tell_read(rt, "signal 63", &mut Book::new(), &[SIGNAL, 0, 63])?;
    tell_read(rt, "signal 64", &mut Book::new(), &[SIGNAL, 0, 64])
}

// The commands of 256 nodes: a signal, and then the next scan of each node before.
fn filling(heap: Global) -> Result<Vec<u8>, AllocError> {
    let mut file = [SIGNAL, 0, 0].to_vec(heap)?;
    for place in 0..255u8 {
        file.extend_from_slice(&[NEXT, 0, place])?;
    }
    Ok(file)
}

fn tell_full_book(rt: &HostRuntime) -> io::Result<()> {
    let file = filling(rt.alloc())?;
    let mut book = Book::new();
    tell_read(rt, "256 nodes", &mut book, file.as_slice())?;
    tell_read(
        rt,
        "an equal node in a full book",
        &mut book,
        &[NEXT, 0, 254],
    )?;
    tell_read(rt, "a new node in a full book", &mut book, &[NEXT, 0, 255])
}

fn tell_file_sizes(rt: &HostRuntime) -> io::Result<()> {
    let file = vec![in rt.alloc(); 0; 4097]?;
    let file = file.as_slice();
    tell_read(rt, "a rule file of 0 bytes", &mut Book::new(), &[])?;
    tell_read(rt, "a rule file of 1 byte", &mut Book::new(), &[0])?;
    tell_read(
        rt,
        "a rule file of 4096 bytes",
        &mut Book::new(),
        &file[..4096],
    )?;
    tell_read(rt, "a rule file of 4097 bytes", &mut Book::new(), file)
}

// Judges the rule at a place on three scans, and says what comes of it.
fn tell_judge(
    rt: &HostRuntime,
    what: &str,
    book: &Book,
    place: Place,
    work: &mut [u64],
) -> io::Result<()> {
    match judge(book, place, &Packed::new(&[1, 1, 1], 2), work) {
        Ok(holds) => println!(rt; "{what}: {holds}"),
        Err(fault) => {
            let number = fault.number();
            match fault {
                JudgeFault::NotInBook(place) => println!(rt;
                    "{what}: refused {number}, place {} is not in the book",
                    place.index
                ),
                JudgeFault::Short(_, needed) => println!(rt;
                    "{what}: refused {number}, {needed} words are needed"
                ),
            }
        }
    }
}

fn tell_judging(rt: &HostRuntime) -> io::Result<()> {
    let mut book = Book::new();
    tell_read(rt, "signal 0", &mut book, &[SIGNAL, 0, 0])?;
    tell_judge(
        rt,
        "judging place 1 of 1 node",
        &book,
        Place { index: 1 },
        &mut [0; 12],
    )?;
    tell_judge(
        rt,
        "judging with 11 words for 3 scans",
        &book,
        Place { index: 0 },
        &mut [0; 11],
    )?;
    tell_judge(
        rt,
        "judging with 12 words for 3 scans",
        &book,
        Place { index: 0 },
        &mut [0; 12],
    )
}

// Tells each border case in a line.
pub(crate) fn tell_borders(rt: &HostRuntime) -> io::Result<()> {
    tell_signals(rt)?;
    tell_full_book(rt)?;
    tell_file_sizes(rt)?;
    tell_judging(rt)
}

// Models of a line: recordings, kept as a word per scan or as a word per change.
#![tactic(auto)]

pub mod edges;
pub mod fault;
pub mod packed;
pub mod recording;

#[cfg(test)]
mod tests {
    use crate::edges::{Edge, Edges};
    use crate::fault::RecordingFault;
    use crate::packed::Packed;
    use crate::recording::Recording;

    const CHANGES: [Edge; 2] = [Edge { scan: 0, word: 5 }, Edge { scan: 3, word: 6 }];

    #[test]
    fn packed_borders(rt: HostRuntime) {
        assert_eq!(rt; Packed::check(&[], 0), Err(RecordingFault::ScanCount(0)));
        assert_eq!(rt;
            Packed::check(&[7, 8], 2),
            Err(RecordingFault::LoopStart(2))
        );
        assert_eq!(rt; Packed::check(&[7, 8], 1), Ok(()));
    }

    #[test]
    fn edges_borders(rt: HostRuntime) {
        assert_eq!(rt;
            Edges::check(&CHANGES, 65_536, 0),
            Err(RecordingFault::ScanCount(65_536))
        );
        assert_eq!(rt;
            Edges::check(&CHANGES, 65_535, 65_535),
            Err(RecordingFault::LoopStart(65_535))
        );
        assert_eq!(rt;
            Edges::check(&CHANGES, 3, 2),
            Err(RecordingFault::EdgeOrder(1))
        );
        assert_eq!(rt; Edges::check(&CHANGES, 4, 3), Ok(()));
    }

    #[test]
    fn edge_order(rt: HostRuntime) {
        assert_eq!(rt; Edges::check(&[], 3, 2), Err(RecordingFault::EdgeOrder(0)));
        assert_eq!(rt;
            Edges::check(&[CHANGES[1]], 4, 0),
            Err(RecordingFault::EdgeOrder(0))
        );
        assert_eq!(rt;
            Edges::check(&[CHANGES[0], CHANGES[0]], 4, 0),
            Err(RecordingFault::EdgeOrder(1))
        );
    }

    #[test]
    fn words_of_scans(rt: HostRuntime) {
        let packed = Packed::new(&[7, 8], 1);
        assert_eq!(rt; (packed.word(1), packed.word(2)), (8, 0));
        let edges = Edges::new(&CHANGES, 5, 1);
        assert_eq!(rt; (edges.word(0), edges.word(2)), (5, 5));
        assert_eq!(rt; (edges.word(3), edges.word(4), edges.word(5)), (6, 6, 0));
    }

    #[test]
    fn stand_in(rt: HostRuntime) {
        let packed = Packed::new(&[7, 8], 2);
        assert_eq!(rt;
            (packed.count(), packed.loop_start(), packed.word(0)),
            (1, 0, 0)
        );
        let edges = Edges::new(&CHANGES, 3, 1);
        assert_eq!(rt;
            (edges.count(), edges.loop_start(), edges.word(0)),
            (1, 0, 0)
        );
    }
}

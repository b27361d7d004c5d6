// The steps of a translation, over lists that the caller lends.
#![tactic(auto)]

pub mod beginning;
pub mod fault;
pub(crate) mod gathers;
pub mod limits;
pub(crate) mod plans;
pub(crate) mod rooms;
pub(crate) mod sets;
pub(crate) mod sheets;
pub mod stepping;
pub mod translation;
pub(crate) mod walks;
pub(crate) mod writes;

#[cfg(test)]
mod tests {
    use crate::stepping::step;
    use crate::translation::{Lack, Progress, Running, StepRefused, Totals};
    use automata::items::{Arc, Item, State};
    use automata::nodes::{CoreNode, CoreSet};
    use std::alloc::AllocError;

    fn set_of(bits: u64) -> CoreSet {
        CoreSet { bits }
    }

    fn first_item() -> Item {
        Item {
            new: set_of(1),
            ..Item::default()
        }
    }

    fn numbers(t: Totals) -> (u32, u16, u16) {
        (t.steps(), t.states(), t.arcs())
    }

    // How a call ended: 0 to 2, or 11 for a refusal, and the steps, states and arcs.
    fn ending(p: Progress) -> (u8, (u32, u16, u16)) {
        match p {
            Progress::Finished(t) => (0, numbers(t.totals())),
            Progress::Running(t) => (1, numbers(t.totals())),
            Progress::NoRoom(t, _) => (2, numbers(t.totals())),
        }
    }

    fn summary(r: Result<Progress, StepRefused>) -> (u8, (u32, u16, u16)) {
        match r {
            Ok(p) => ending(p),
            Err(refused) => {
                let StepRefused { translation, fault } = refused;
                (fault.number(), numbers(translation.totals()))
            }
        }
    }

    // Two steps at a time.
    fn drive(
        t: Running,
        sheet: &[CoreNode],
        states: &mut [State],
        arcs: &mut [Arc],
        pending: &mut [Item],
    ) -> (u8, (u32, u16, u16)) {
        let mut t = t;
        for _ in 0..100 {
            match step(t, sheet, states, arcs, pending, 2) {
                Ok(p) => match p {
                    Progress::Finished(f) => return (0, numbers(f.totals())),
                    Progress::Running(r) => {
                        t = r;
                    }
                    Progress::NoRoom(r, _) => return (2, numbers(r.totals())),
                },
                Err(refused) => {
                    let StepRefused { translation, fault } = refused;
                    return (fault.number(), numbers(translation.totals()));
                }
            }
        }
        (1, numbers(t.totals()))
    }

    fn begun() -> Running {
        let totals = Totals {
            cores: 1,
            sets: 0,
            steps: 0,
            states: 0,
            arcs: 0,
        };
        Running { totals, pending: 1 }
    }

    #[test]
    fn one_literal(rt: HostRuntime) {
        let sheet = [CoreNode::On(5)];
        let mut states = [State::default(); 3];
        let mut arcs = [Arc { from: 9, to: 9 }; 4];
        let mut pending = [first_item(); 1];
        assert_eq!(rt;
            summary(step(begun(), &sheet, &mut states, &mut arcs, &mut pending, 9)),
            (0, (4, 2, 3))
        );
        assert_eq!(rt; states[0], state(1, 0, 0, 32));
        assert_eq!(rt; states[1], State::default());
        assert_eq!(rt; arcs[0], Arc { from: 0, to: 1 });
        assert_eq!(rt; arcs[1], Arc { from: 1, to: 2 });
        assert_eq!(rt; arcs[2], Arc { from: 2, to: 2 });
        assert_eq!(rt; arcs[3], Arc { from: 9, to: 9 });
    }

    #[test]
    fn allowances_and_room(rt: HostRuntime) {
        let sheet = [CoreNode::On(5)];
        let mut states = [State::default(); 1];
        let mut arcs = [Arc { from: 9, to: 9 }; 4];
        let mut pending = [first_item(); 1];
        assert_eq!(rt;
            summary(step(begun(), &sheet, &mut states, &mut arcs, &mut pending, 0)),
            (1, (0, 0, 0))
        );
        assert_eq!(rt;
            summary(step(begun(), &sheet, &mut states, &mut arcs, &mut pending, 1)),
            (1, (1, 0, 0))
        );
        pending[0] = first_item();
        assert_eq!(rt;
            summary(step(begun(), &sheet, &mut states, &mut arcs, &mut pending, 9)),
            (2, (2, 1, 1))
        );
    }

    #[test]
    fn short_lists(rt: HostRuntime) {
        let mut states = [State::default(); 1];
        let mut arcs = [Arc { from: 9, to: 9 }; 4];
        let mut pending = [first_item(); 1];
        assert_eq!(rt;
            summary(step(begun(), &[], &mut states, &mut arcs, &mut pending, 9)),
            (11, (0, 0, 0))
        );
    }

    fn state(old: u64, next: u64, marks: u64, on: u64) -> State {
        State {
            old: set_of(old),
            next: set_of(next),
            marks,
            on,
            off: 0,
        }
    }

    fn until_begun() -> Running {
        let totals = Totals {
            cores: 3,
            sets: 1,
            steps: 0,
            states: 0,
            arcs: 0,
        };
        Running { totals, pending: 1 }
    }

    // p until q, and the marks of its states.
    #[test]
    fn one_until(rt: HostRuntime) {
        let sheet = [CoreNode::On(0), CoreNode::On(1), CoreNode::Until(0, 1)];
        let mut states = [State::default(); 9];
        let mut arcs = [Arc { from: 9, to: 9 }; 20];
        let mut pending = [first_item(); 9];
        pending[0].new = set_of(4);
        let end = drive(until_begun(), &sheet, &mut states, &mut arcs, &mut pending);
        assert_eq!(rt; end, (0, (12, 3, 6)));
        assert_eq!(rt; states[0], state(5, 4, 0, 1));
        assert_eq!(rt; states[1], state(6, 0, 1, 2));
        assert_eq!(rt; states[2], state(0, 0, 1, 0));
        assert_eq!(rt; states[3], State::default());
    }

    #[test]
    fn lacks(rt: HostRuntime) -> Result<(), AllocError> {
        let heap = rt.alloc();
        assert_eq!(rt; format!(in heap; "{}", Lack::Steps)?.as_str(), "steps");
        assert_eq!(rt; format!(in heap; "{}", Lack::States)?.as_str(), "states");
        assert_eq!(rt; format!(in heap; "{}", Lack::Arcs)?.as_str(), "arcs");
        assert_eq!(rt; format!(in heap; "{}", Lack::Pending)?.as_str(), "pending");
        Ok(())
    }
}

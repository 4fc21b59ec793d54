// A list of calls, run on a new heap.
#![tactic(auto)]

#[cfg(test)]
mod tests {
    use refusals::refusal::Refusal;
    use replay::call::{Answer, Call, CellCall, Phase};
    use replay::replay::replay;
    use scan::frame::Frame;
    use scan::inspector::Nobody;
    use sources::table::Table;
    use std::test::Fail;

    // Code 1: a plain word, an address of its own type, a pointer. Code 6: two plain words. Code 9: no words.
    const TABLE: [u32; 10] = [0, 4, 65537, 1, 65536, 65537, 2, 65537, 65537, 0];

    fn cell(call: CellCall) -> Call<Nobody> {
        Call::Cell(call)
    }

    fn make(hold: u32, code: u32) -> Call<Nobody> {
        Call::Make {
            hold,
            code,
            pending: 13,
        }
    }

    #[test]
    fn a_list_is_run_up_to_a_call_that_does_not_exist(rt: HostRuntime) -> Result<(), Fail> {
        let table = Table::new(rt.alloc(), &TABLE)?;
        let mut words = [7; 13];
        let mut marks = [9; 13];
        let mut places = [Frame {
            code: 0,
            address: 0,
            word: 0,
        }; 13];
        let mut calls = [
            cell(CellCall::Take { hold: 0 }),
            make(0, 1),
            cell(CellCall::Take { hold: 1 }),
            make(1, 6),
            cell(CellCall::Put {
                hold: 0,
                word: 3,
                from: 1,
            }),
            cell(CellCall::Release { hold: 1 }),
            Call::Mark { pending: 13 },
            Call::Survey,
            Call::Sweep,
            make(0, 1),
            make(0, 1),
            cell(CellCall::Look { hold: 1, word: 1 }),
            Call::Sweep,
            cell(CellCall::Tell { hold: 0 }),
        ];
        let mut answers = [Ok(Answer::Done); 14];
        let ran = replay(
            &table,
            &mut words,
            &mut marks,
            &mut places,
            &mut calls,
            &mut answers,
        )?;
        assert_eq!(rt; ran.count, 12);
        assert_eq!(rt; ran.phase, Phase::Open);
        assert_eq!(rt; answers[1], Ok(Answer::Number(9)));
        assert_eq!(rt; answers[3], Ok(Answer::Number(7)));
        assert_eq!(rt; answers[6], Ok(Answer::Number(2)));
        assert_eq!(rt; answers[7], Ok(Answer::Number(6)));
        assert_eq!(rt; answers[8], Ok(Answer::Number(6)));
        assert_eq!(rt; answers[9], Ok(Answer::Number(3)));
        assert_eq!(rt; answers[10], Ok(Answer::Number(9)));
        assert_eq!(rt; answers[11], Err(Refusal::HoldState { hold: 1 }));
        Ok(())
    }
}

// Tests of the calls on damaged memory, foreign hold tables and numbers out of range.
#![tactic(auto)]

#[cfg(test)]
mod tests {
    use calls::by_number;
    use calls::holds::Holds;
    use calls::record::HoldRecord;
    use cells::content::Content;
    use heap::memory::{Memory, Open};
    use inspectors::lister::Lister;
    use refusals::refusal::Refusal;
    use scan::frame::Frame;
    use sources::table::Table;
    use std::alloc::Global;
    use std::process::Abort;
    use std::test::Fail;
    use tracing::by_number::trace;

    // Code 1: a plain word, an address of its own type, a pointer. Code 6: two plain words. Code 9: no words.
    const TABLE: [u32; 10] = [0, 4, 65537, 1, 65536, 65537, 2, 65537, 65537, 0];

    // A cell of code 1 at 9 whose address and pointer lead out of the heap.
    const WORDS: [u32; 16] = [0, 0, 0, 0, 0, 0, 0, 0, 0, 40, 13, 6, 100, 0, 0, 0];

    // The same cell, which leads to one of code 6 at 3.
    const LINKED: [u32; 16] = [0, 0, 0, 5, 8, 0, 0, 0, 0, 40, 0, 6, 3, 0, 0, 0];

    const UNHELD: HoldRecord = HoldRecord {
        held: false,
        content: Content::Nothing,
    };

    const BLANK: Frame = Frame {
        code: 0,
        address: 0,
        word: 0,
    };

    fn held(content: Content) -> HoldRecord {
        HoldRecord {
            held: true,
            content,
        }
    }

    // Hold 0 has the cell at 9; 1 and 5 have cells that do not fit; 2 an immediate; 3 nothing; 6 a cell of code 6.
    fn foreign() -> Holds {
        let mut records = [UNHELD; 64];
        records[0] = held(Content::Cell {
            code: 1,
            address: 9,
        });
        records[1] = held(Content::Cell {
            code: 1,
            address: 13,
        });
        records[2] = held(Content::Immediate { code: 9, number: 5 });
        records[3] = held(Content::Nothing);
        records[5] = held(Content::Cell {
            code: 7,
            address: 1,
        });
        records[6] = held(Content::Cell {
            code: 6,
            address: 3,
        });
        Holds::adopt(records)
    }

    // The number and the place of a refusal, where there is one: what the refusal table gives is what is tested.
    fn told<T: Drop>(answer: Result<T, Refusal>) -> Option<(u32, u64)> {
        let refusal = answer.err()?;
        Some((refusal.number(), refusal.place()))
    }

    #[test]
    fn looks(rt: HostRuntime) -> Result<(), Fail> {
        let table = Table::new(rt.alloc(), &TABLE)?;
        let holds = foreign();
        for (hold, word, number, place) in [
            (64, 1, 2, 64),
            (4, 1, 3, 4),
            (3, 1, 6, 3),
            (2, 1, 6, 2),
            (1, 1, 7, 1),
            (5, 1, 7, 5),
            (0, 0, 8, 0),
            (0, 5, 8, 5),
            (0, 2, 9, 2),
            (0, 3, 9, 3),
            (0, 4, 9, 4),
        ] {
            assert_eq!(rt;
                told(by_number::look(&WORDS, &holds, &table, hold, word)),
                Some((number, place))
            );
        }
        assert_eq!(rt; by_number::look(&WORDS, &holds, &table, 0, 1)?, 40);
        Ok(())
    }

    #[test]
    fn fetches(rt: HostRuntime) -> Result<(), Fail> {
        let table = Table::new(rt.alloc(), &TABLE)?;
        let mut holds = foreign();
        for (hold, word, to, number, place) in [
            (4, 1, 64, 2, 64),
            (0, 1, 4, 3, 4),
            (3, 1, 0, 6, 3),
            (1, 1, 0, 7, 1),
            (0, 5, 3, 8, 5),
            (0, 1, 3, 9, 1),
            (0, 4, 3, 9, 4),
            (0, 2, 3, 10, 10),
            (0, 3, 3, 10, 11),
        ] {
            assert_eq!(rt;
                told(by_number::fetch(&WORDS, &mut holds, &table, hold, word, to)),
                Some((number, place))
            );
        }
        assert_eq!(rt; by_number::tell(&holds, 3)?, Content::Nothing);
        Ok(())
    }

    fn put_refused(rt: &impl Abort, words: &mut [u32], holds: &Holds, table: &Table) {
        for (word, from, number, place) in [
            (1, 3, 9, 1),
            (2, 2, 9, 2),
            (2, 6, 9, 2),
            (4, 3, 9, 4),
            (3, 64, 2, 64),
        ] {
            assert_eq!(rt;
                told(by_number::put(words, holds, table, 0, word, from)),
                Some((number, place))
            );
        }
    }

    #[test]
    fn puts(rt: HostRuntime) -> Result<(), Fail> {
        let table = Table::new(rt.alloc(), &TABLE)?;
        let holds = foreign();
        let mut words = WORDS;
        put_refused(&rt, &mut words, &holds, &table);
        by_number::put(&mut words, &holds, &table, 0, 2, 3)?;
        by_number::put(&mut words, &holds, &table, 0, 3, 2)?;
        by_number::set(&mut words, &holds, &table, 0, 1, 41)?;
        assert_eq!(rt; words, [0, 0, 0, 0, 0, 0, 0, 0, 0, 41, 0, 9, 5, 0, 0, 0]);
        Ok(())
    }

    // What hold 0 reaches, listed; the marks are not zero before it.
    fn lists(
        rt: &impl Abort,
        words: &[u32],
        table: &Table,
        buffer: &mut [u8],
        refused: Option<(u32, u64)>,
        text: &[u8],
    ) {
        let mut marks = [7; 16];
        let mut pending = [BLANK; 16];
        let mut lister = Lister::new(buffer);
        let traced = trace(
            words,
            &mut marks,
            &mut pending,
            &foreign(),
            table,
            &mut lister,
            0,
        );
        assert_eq!(rt; told(traced), refused);
        assert!(rt; lister.written() == text);
        assert_eq!(rt; marks, [0; 16]);
    }

    #[test]
    fn traces(rt: HostRuntime) -> Result<(), Fail> {
        let table = Table::new(rt.alloc(), &TABLE)?;
        let mut long = [0; 21];
        let mut short = [0; 20];
        lists(
            &rt,
            &LINKED,
            &table,
            &mut long,
            None,
            b"6 3 5 8\n1 9 40 0 6 3\n",
        );
        lists(
            &rt,
            &LINKED,
            &table,
            &mut short,
            Some((12, 9)),
            b"6 3 5 8\n",
        );
        lists(&rt, &WORDS, &table, &mut long, Some((10, 10)), b"");
        Ok(())
    }

    // A hold of one table, used with another; the memory is taken back at the end.
    fn round(
        rt: &impl Abort,
        words: &mut [u32],
        marks: &mut [u8],
        heap: Global,
    ) -> Result<u32, Fail> {
        let table = Table::new(heap, &TABLE)?;
        let holds = foreign();
        let Ok(mut open) = Open::adopt(Memory { words, marks }) else {
            return Err(Fail::new("refused"));
        };
        let mut free = Holds::new();
        let hold = open.take(&mut free, 0)?;
        let set = told(open.set(&holds, &table, &hold, 1, 7));
        let looked = told(open.look(&free, &table, &hold, 1));
        if let Err((hold, _)) = open.release(&mut free, hold) {
            assert_eq!(rt; hold.into_number(), 64);
        }
        assert_eq!(rt; set, None);
        assert_eq!(rt; looked, Some((6, 0)));
        let memory = open.close();
        assert!(rt; memory.words.len() == 16);
        Ok(memory.words[9])
    }

    #[test]
    fn adopts(rt: HostRuntime) -> Result<(), Fail> {
        let mut words = WORDS;
        let mut marks = [7; 16];
        assert_eq!(rt; round(&rt, &mut words, &mut marks, rt.alloc())?, 7);
        Ok(())
    }

    // Hold 0 has the cell at 9: what it reaches stays, and the sweep frees the rest. Answers word 0 after it.
    fn swept(
        rt: &impl Abort,
        words: &mut [u32],
        marks: &mut [u8],
        heap: Global,
    ) -> Result<u32, Fail> {
        let table = Table::new(heap, &TABLE)?;
        let mut records = [UNHELD; 64];
        records[0] = held(Content::Cell {
            code: 1,
            address: 9,
        });
        let mut pending = [BLANK; 16];
        let Ok(open) = Open::adopt(Memory { words, marks }) else {
            return Err(Fail::new("refused"));
        };
        let Ok((marked, cells)) = open.mark(&Holds::adopt(records), &table, &mut pending) else {
            return Err(Fail::new("not marked"));
        };
        assert_eq!(rt; cells, 2);
        assert_eq!(rt; marked.survey(), 9);
        let (open, freed) = marked.sweep();
        assert_eq!(rt; freed, 9);
        let memory = open.close();
        assert!(rt; memory.words.len() == 16);
        Ok(memory.words[0])
    }

    #[test]
    fn sweeps(rt: HostRuntime) -> Result<(), Fail> {
        let mut words = LINKED;
        let mut marks = [7; 16];
        assert_eq!(rt; swept(&rt, &mut words, &mut marks, rt.alloc())?, 1);
        Ok(())
    }

    #[test]
    fn refuses_memory(rt: HostRuntime) -> Result<(), Fail> {
        let mut words = [5; 3];
        let mut marks = [5; 2];
        let memory = Memory {
            words: &mut words,
            marks: &mut marks,
        };
        match Open::new(memory) {
            Ok(_) => Err(Fail::new("accepted")),
            Err((memory, refusal)) => {
                assert_eq!(rt; refusal.number(), 1);
                assert!(rt; memory.words.len() == 3);
                assert_eq!(rt; memory.words[0], 5);
                Ok(())
            }
        }
    }
}

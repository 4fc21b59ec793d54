// Tests of the table check, and of sources that stand on one another.
#![tactic(auto)]

#[cfg(test)]
mod tests {
    use layouts::entry::{Class, Entry};
    use layouts::place::Place;
    use refusals::refusal::Refusal;
    use sources::check::check as check_table;
    use sources::mask::Mask;
    use sources::over::Over;
    use sources::rule::Rule;
    use sources::source::TemplateSource;
    use sources::table::Table;
    use sources::uses::{class, count_references};
    use std::test::Fail;

    // The number and the place of a table's refusal, if it is refused: what the refusal table gives is what is tested.
    fn told(words: &[u32]) -> Option<(u32, u64)> {
        check_table(words).map(|refusal| (refusal.number(), refusal.place()))
    }

    #[test]
    fn tables(rt: HostRuntime) {
        assert_eq!(rt; told(&[]), Some((21, 0)));
        assert_eq!(rt; told(&[1]), Some((21, 0)));
        assert_eq!(rt; told(&[0]), None);
        assert_eq!(rt; told(&[0, 1, 1]), None);
        assert_eq!(rt; told(&[0, 256]), Some((22, 1)));
        assert_eq!(rt; told(&[0, 1, 0, 2, 65537]), Some((23, 3)));
        assert_eq!(rt; told(&[0, 2, 65537]), Some((23, 1)));
        assert_eq!(rt; told(&[0, 1, 0]), Some((24, 2)));
        assert_eq!(rt; told(&[0, 1, 32768]), Some((24, 2)));
        assert_eq!(rt; told(&[0, 1, 65538]), Some((24, 2)));
        assert_eq!(rt; told(&[0, 1, 65536]), Some((25, 2)));
        assert_eq!(rt; told(&[0, 2, 65536, 1]), Some((25, 2)));
        assert_eq!(rt; told(&[0, 1, 2]), Some((26, 2)));
        assert_eq!(rt; told(&[0, 0, 1, 1]), Some((26, 3)));
    }

    #[test]
    fn stacked(rt: HostRuntime) -> Result<(), Fail> {
        let table = Table::new(
            rt.alloc(),
            &[0, 4, 65537, 1, 65536, 65537, 2, 65537, 65537, 0],
        )?;
        let over = Over { below: &table };
        let mut mask = Mask::new(&over);
        assert_eq!(rt; count_references(&mask, 1), Some(2));
        assert_eq!(rt; class(&mask, 1, 4), Class::SecondHalf);
        mask.cover(Place { code: 1, word: 3 })?;
        assert_eq!(rt; count_references(&mask, 1), Some(1));
        assert_eq!(rt; class(&mask, 1, 4), Class::Plain);
        assert_eq!(rt; mask.size(33025), Some(3));
        assert_eq!(rt; mask.entry(33025, 1), Entry::P);
        assert_eq!(rt; class(&mask, 33025, 3), Class::Plain);
        assert_eq!(rt; Rule.size(9), None);
        assert_eq!(rt; mask.size(9), Some(0));
        assert_eq!(rt; mask.size(7), None);
        Ok(())
    }

    #[test]
    fn masks(rt: HostRuntime) -> Result<(), Fail> {
        let mut mask = Mask::new(Rule);
        for word in 1..33 {
            mask.cover(Place { code: 33025, word })?;
        }
        let refused = mask.cover(Place { code: 1, word: 1 });
        assert_eq!(rt; refused, Err(Refusal::MaskFull));
        assert_eq!(rt;
            refused
                .err()
                .map(|refusal| (refusal.number(), refusal.place())),
            Some((27, 32))
        );
        Ok(())
    }
}

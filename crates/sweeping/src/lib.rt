// The sweep: each longest stretch of unmarked words becomes a run of the free list.
#![tactic(auto)]

mod stretch;
pub mod survey;
pub mod sweep;

#[cfg(test)]
mod tests {
    use crate::survey::survey;
    use crate::sweep::sweep;
    use free_list::fault::Fault;
    use free_list::take::take_cell;

    #[test]
    fn cells_are_taken_from_swept_words(rt: HostRuntime) {
        let mut words = [7 * 65536 + 3, 11, 12, 13, 14, 15];
        let mut marks = [0, 1, 0, 2, 1, 0];
        assert_eq!(rt; survey(words.len(), &marks), Ok(3));
        assert_eq!(rt; sweep(&mut words, &mut marks), Ok(3));
        assert_eq!(rt; words, [7 * 65536 + 2, 11, 2 * 65536 + 5, 13, 14, 65536]);
        assert_eq!(rt; marks, [0; 6]);
        assert_eq!(rt; take_cell(&mut words, 1), Ok(Some(3)));
        assert_eq!(rt; take_cell(&mut words, 1), Ok(Some(2)));
        assert_eq!(rt; words, [7 * 65536 + 5, 11, 0, 0, 14, 65536]);
        assert_eq!(rt; take_cell(&mut words, 2), Ok(None));
    }

    // The link behind the run that is used up is broken, and leads to a run once it is read from word 0.
    #[test]
    fn a_broken_link_may_heal(rt: HostRuntime) {
        let mut words = [5, 0, 65536, 0, 0, 3 * 65536 + 2, 9, 9, 0, 0];
        assert_eq!(rt; take_cell(&mut words, 4), Err(Fault::Broken(5)));
        assert_eq!(rt; take_cell(&mut words, 3), Ok(Some(5)));
        assert_eq!(rt; take_cell(&mut words, 1), Ok(Some(2)));
    }
}

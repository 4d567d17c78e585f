// The pass line: a chain that stores no row, and works each out from its number of passes and of repeats.

#![tactic(auto)]

pub mod line;

#[cfg(test)]
mod tests {
    use crate::line::PassLine;
    use chain::interface::Chain;
    use chain::record::{NO_ROW, RowRecord};
    use chain::refusal::Refusal;

    // The answer with the number of a refusal.
    fn number(answer: Result<(), Refusal>) -> Result<(), u8> {
        answer.map_err(|refusal| refusal.number())
    }

    #[test]
    fn sets_the_pair_or_keeps_it(rt: HostRuntime) {
        let mut line = PassLine::new();
        let set = number(line.set(2, 1));
        let refused = [number(line.set(0, 0)), number(line.set(1, 32))];
        assert_eq!(rt; set, Ok(()));
        assert_eq!(rt; refused, [Err(14), Err(14)]);
        assert_eq!(rt; [line.passes(), line.repeats(), line.states()], [2, 1, 6]);
    }

    #[test]
    fn fills_rows(rt: HostRuntime) {
        let mut line = PassLine::new();
        let set = number(line.set(2, 1));
        let mut first = NO_ROW;
        let mut second = NO_ROW;
        let answers = [
            set,
            number(line.row(0, &mut first)),
            number(line.row(1, &mut second)),
            number(line.row(6, &mut second)),
        ];
        assert_eq!(rt; answers, [Ok(()), Ok(()), Ok(()), Err(13)]);
        assert_eq!(rt; successors(&first), [1, 2, 5]);
        assert_eq!(rt; first.edges[0].coefficients, [0, 1, 0, -1, 0, 0, 0, 0]);
        assert_eq!(rt; successors(&second), [2, 5, 0]);
    }

    fn successors(row: &RowRecord) -> [u32; 3] {
        [
            row.edges[0].successor,
            row.edges[1].successor,
            row.edges[2].successor,
        ]
    }
}

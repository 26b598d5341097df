use crate::laws;
use std::test::Fail;

#[test]
fn laws_are_stated(_rt: HostRuntime) -> Result<(), Fail> {
    laws::rows_are_ordered();
    laws::turns_are_monotone();
    laws::full_tables_are_solutions();
    laws::tables_are_least_solutions();
    laws::rows_may_be_made_one_by_one();
    laws::rising_tables_are_full();
    laws::causal_bodies_are_known();
    laws::later_lines_change_nothing();
    laws::solutions_go_by_cells();
    laws::causality_goes_by_definitions();
    laws::meanings_go_by_their_lines();
    Ok(())
}

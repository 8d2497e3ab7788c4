// The whole table of an update's states.
use dm_fumo::{after_exec, after_result, after_write, may_exec, result_code};
use std::test::Fail;

// A state, what a write and an empty one lead to, and whether an Exec may come.
const ROWS: [(u8, Option<u8>, Option<u8>, bool); 5] = [
    (10, Some(50), Some(10), false),
    (50, Some(50), Some(10), true),
    (60, None, None, false),
    (70, Some(50), Some(10), true),
    (100, Some(50), Some(10), false),
];

#[test]
fn each_state_leads_where_the_table_says(rt: HostRuntime) -> Result<(), Fail> {
    for (state, written, emptied, exec) in &ROWS {
        assert_eq!(rt; after_write(*state, false), *written);
        assert_eq!(rt; after_write(*state, true), *emptied);
        assert_eq!(rt; may_exec(*state), *exec);
    }
    assert_eq!(rt; after_exec(), 60);
    assert_eq!(rt; after_result(true), 100);
    assert_eq!(rt; after_result(false), 70);
    assert_eq!(rt; result_code(true), 200);
    assert_eq!(rt; result_code(false), 410);
    Ok(())
}

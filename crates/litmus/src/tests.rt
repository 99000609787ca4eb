use crate::*;

#[test]
fn the_laws_are_proved() {
    tso_forbids_message_passing();
    message_passing_is_well_formed();
    arm_allows_message_passing();
    arm_forbids_message_passing_with_fences();
    tso_allows_store_buffering();
    tso_forbids_store_buffering_with_fences();
    arm_forbids_store_buffering_with_fences();
}

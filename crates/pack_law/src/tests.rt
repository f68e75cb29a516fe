use crate::law::exhausted_is_beyond_the_pack;

#[test]
fn law_computes_nothing() {
    exhausted_is_beyond_the_pack();
}

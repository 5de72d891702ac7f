use super::*;

// A container of two records, of one byte and of three, then a record that the end cuts off after one of its two bytes.
#[test]
fn each_record_is_given_once_and_in_order(rt: HostRuntime) {
    let container = [1, 0, 0, 0, 7, 3, 0, 0, 0, 1, 2, 3, 2, 0, 0, 0, 9];
    let mut from: &[u8] = &container;
    let mut to = [0u8; 8];
    let mut digits = 0u32;
    let count = each_record(&mut from, &mut to, |record| {
        for &b in record {
            digits = digits.wrapping_mul(10).wrapping_add(u32::from(b));
        }
    });
    assert_eq!(rt; count, 3);
    assert_eq!(rt; digits, 71239);
}

//! Both rules on worked figures, and at each limit and one past it.
use crate::largest::LargestRemainder;
use crate::rule::ShareRule;
use crate::running::Running;
use crate::sharing::{MAX_QUANTITY, MAX_WEIGHT};

// Whether the rule gives these shares, over a sheet that held other numbers.
fn gives<R: ShareRule>(rule: &R, quantity: u64, weights: &[u64], shares: &[u64; 3]) -> bool {
    let mut out = [7; 3];
    rule.share(quantity, weights, &mut out);
    out == *shares
}

#[test]
fn figures(rt: HostRuntime) {
    assert!(rt; gives(&Running, 100, &[1, 1, 1], &[33, 33, 34]));
    assert!(rt; gives(&LargestRemainder, 100, &[1, 1, 1], &[34, 33, 33]));
    assert!(rt; gives(&Running, 4, &[2, 3, 0], &[1, 3, 0]));
    assert!(rt; gives(&LargestRemainder, 4, &[2, 3, 0], &[2, 2, 0]));
}

#[test]
fn ties_and_zeros(rt: HostRuntime) {
    assert!(rt; gives(&LargestRemainder, 5, &[2, 2, 2], &[2, 2, 1]));
    assert!(rt; gives(&LargestRemainder, 1, &[0, 3, 3], &[0, 1, 0]));
    assert!(rt; gives(&Running, 1, &[0, 3, 3], &[0, 0, 1]));
    assert!(rt; gives(&Running, 9, &[0, 0, 0], &[0, 0, 0]));
}

fn shares_at_limits<R: ShareRule>(rule: &R) -> bool {
    gives(
        rule,
        MAX_QUANTITY,
        &[1, 0, 1],
        &[MAX_QUANTITY / 2, 0, MAX_QUANTITY / 2],
    ) && gives(rule, 3, &[MAX_WEIGHT, MAX_WEIGHT, MAX_WEIGHT], &[1, 1, 1])
}

fn shares_nothing_past_limits<R: ShareRule>(rule: &R) -> bool {
    gives(rule, MAX_QUANTITY + 1, &[1, 0, 1], &[0, 0, 0])
        && gives(rule, 3, &[1, MAX_WEIGHT + 1, 1], &[0, 0, 0])
        && gives(rule, 3, &[1, 1], &[0, 0, 0])
        && gives(rule, 3, &[1, 1, 1, 0], &[0, 0, 0])
}

fn shares_most_weights<R: ShareRule>(rule: &R) -> bool {
    let mut out = [7; 4096];
    rule.share(8192, &[1; 4096], &mut out);
    let mut more = [7; 4097];
    rule.share(8194, &[1; 4097], &mut more);
    out[4095] == 2 && more[4096] == 0
}

#[test]
fn limits(rt: HostRuntime) {
    assert!(rt; shares_at_limits(&Running) && shares_at_limits(&LargestRemainder));
    assert!(rt;
        shares_nothing_past_limits(&Running) && shares_nothing_past_limits(&LargestRemainder)
    );
    assert!(rt; shares_most_weights(&Running) && shares_most_weights(&LargestRemainder));
}

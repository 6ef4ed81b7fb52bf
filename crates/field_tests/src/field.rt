use crate::checks::same;
use crate::numbers::gold;
use gold_field::{Gold, Op1, Op2, binary, unary};

// The number p - 1.
const LAST: u64 = 18446744069414584320;

// The greatest and the least number as comparisons see it: (p - 1) / 2, and -(p - 1) / 2.
const GREATEST: u64 = 9223372034707292160;

const LEAST: u64 = 9223372034707292161;

// An operator, its operands and its answer.
static ROWS: [(Op2, u64, u64, u64); 131] = [
    (Op2::Add, 0, 1, 1),
    (Op2::Add, 0, LAST, LAST),
    (Op2::Add, LAST, LAST, 18446744069414584319),
    (Op2::Add, LAST, 1, 0),
    (Op2::Add, GREATEST, LEAST, 0),
    (Op2::Sub, 0, 1, LAST),
    (Op2::Sub, 0, LAST, 1),
    (Op2::Sub, LAST, LAST, 0),
    (Op2::Sub, LAST, 1, 18446744069414584319),
    (Op2::Sub, GREATEST, LEAST, LAST),
    (Op2::Sub, 3, 5, 18446744069414584319),
    (Op2::Mul, 0, 1, 0),
    (Op2::Mul, 0, LAST, 0),
    (Op2::Mul, LAST, LAST, 1),
    (Op2::Mul, LAST, 1, LAST),
    (Op2::Mul, GREATEST, LEAST, 4611686017353646080),
    (Op2::Div, LAST, 2, GREATEST),
    (Op2::Div, 0, LAST, 0),
    (Op2::Div, LAST, LAST, 1),
    (Op2::Div, 4294967296, 5, 14757395256390660916),
    (Op2::Div, GREATEST, LEAST, LAST),
    (Op2::Div, 1, LAST, LAST),
    (Op2::Div, 5, 2, 9223372034707292163),
    (Op2::Div, 1, 2, LEAST),
    (Op2::Quot, LAST, 2, GREATEST),
    (Op2::Quot, 0, LAST, 0),
    (Op2::Quot, LAST, LAST, 1),
    (Op2::Quot, 4294967296, 5, 858993459),
    (Op2::Quot, GREATEST, LEAST, 0),
    (Op2::Quot, 1, LAST, 0),
    (Op2::Quot, 5, 2, 2),
    (Op2::Quot, 1, 2, 0),
    (Op2::Rem, LAST, 2, 0),
    (Op2::Rem, 0, LAST, 0),
    (Op2::Rem, LAST, LAST, 0),
    (Op2::Rem, 4294967296, 5, 1),
    (Op2::Rem, GREATEST, LEAST, GREATEST),
    (Op2::Rem, 1, LAST, 1),
    (Op2::Rem, 5, 2, 1),
    (Op2::Rem, 5, 3, 2),
    (Op2::Pow, 0, 0, 1),
    (Op2::Pow, 0, 1, 0),
    (Op2::Pow, 2, 0, 1),
    (Op2::Pow, LAST, LAST, 1),
    (Op2::Pow, 2, 64, 4294967295),
    (Op2::Pow, 5, 4294967296, 4493422947830755082),
    (Op2::Pow, LEAST, 2, 13835058052060938241),
    (
        Op2::Pow,
        18446744069414584319,
        18446744069414584319,
        GREATEST,
    ),
    (Op2::Pow, 4294967296, 5, 18446744065119617026),
    (Op2::Shl, 1, 63, 9223372036854775808),
    (Op2::Shl, 1, 64, 0),
    (Op2::Shl, LAST, 0, LAST),
    (Op2::Shl, LAST, 63, 0),
    (Op2::Shl, LAST, 64, 0),
    (Op2::Shl, LAST, GREATEST, 0),
    (Op2::Shl, LAST, LEAST, 0),
    (Op2::Shl, LAST, 18446744069414584257, 0),
    (Op2::Shl, LAST, 18446744069414584258, 1),
    (Op2::Shl, LAST, LAST, GREATEST),
    (Op2::Shl, LEAST, 63, 9223372036854775808),
    (Op2::Shl, LEAST, 18446744069414584258, 0),
    (Op2::Shl, 4294967296, 63, 0),
    (Op2::Shl, 4294967296, LAST, 2147483648),
    (Op2::Shl, 3, 63, 9223372036854775808),
    (Op2::Shl, 1, LAST, 0),
    (Op2::Shr, 1, 63, 0),
    (Op2::Shr, 1, 64, 0),
    (Op2::Shr, LAST, 0, LAST),
    (Op2::Shr, LAST, 63, 1),
    (Op2::Shr, LAST, 64, 0),
    (Op2::Shr, LAST, GREATEST, 0),
    (Op2::Shr, LAST, LEAST, 0),
    (Op2::Shr, LAST, 18446744069414584257, 0),
    (Op2::Shr, LAST, 18446744069414584258, 0),
    (Op2::Shr, LAST, LAST, 18446744065119617024),
    (Op2::Shr, LEAST, 63, 0),
    (Op2::Shr, LEAST, 18446744069414584258, 9223372036854775808),
    (Op2::Shr, 4294967296, 63, 0),
    (Op2::Shr, 4294967296, LAST, 8589934592),
    (Op2::Shr, LAST, 1, GREATEST),
    (Op2::And, LAST, 5, 0),
    (Op2::And, 0, 1, 0),
    (Op2::And, LAST, LAST, LAST),
    (Op2::And, GREATEST, LEAST, GREATEST),
    (Op2::And, 18446744069414584319, 5, 5),
    (Op2::Xor, LAST, 5, 4),
    (Op2::Xor, 0, 1, 1),
    (Op2::Xor, LAST, LAST, 0),
    (Op2::Xor, GREATEST, LEAST, 1),
    (Op2::Xor, 18446744069414584319, 5, 18446744069414584314),
    (Op2::Or, LAST, 5, 4),
    (Op2::Or, 0, 1, 1),
    (Op2::Or, LAST, LAST, LAST),
    (Op2::Or, GREATEST, LEAST, LEAST),
    (Op2::Or, 18446744069414584319, 5, 18446744069414584319),
    (Op2::Lt, 0, 1, 1),
    (Op2::Lt, 0, LEAST, 0),
    (Op2::Lt, GREATEST, LEAST, 0),
    (Op2::Lt, LAST, 1, 1),
    (Op2::Lt, 18446744069414584319, LAST, 1),
    (Op2::Lt, 2, LEAST, 0),
    (Op2::Lt, GREATEST, 1, 0),
    (Op2::Lt, 63, LEAST, 0),
    (Op2::Le, 0, 1, 1),
    (Op2::Le, 0, LEAST, 0),
    (Op2::Le, GREATEST, LEAST, 0),
    (Op2::Le, LAST, 1, 1),
    (Op2::Le, 18446744069414584319, LAST, 1),
    (Op2::Le, 2, LEAST, 0),
    (Op2::Gt, 0, 1, 0),
    (Op2::Gt, 0, LEAST, 1),
    (Op2::Gt, GREATEST, LEAST, 1),
    (Op2::Gt, LAST, 1, 0),
    (Op2::Gt, 18446744069414584319, LAST, 0),
    (Op2::Gt, 2, LEAST, 1),
    (Op2::Ge, 0, 1, 0),
    (Op2::Ge, 0, LEAST, 1),
    (Op2::Ge, GREATEST, LEAST, 1),
    (Op2::Ge, LAST, 1, 0),
    (Op2::Ge, 18446744069414584319, LAST, 0),
    (Op2::Ge, 2, LEAST, 1),
    (Op2::Eq, 0, 1, 0),
    (Op2::Eq, 0, LAST, 0),
    (Op2::Eq, LAST, LAST, 1),
    (Op2::Eq, LAST, 1, 0),
    (Op2::Eq, GREATEST, LEAST, 0),
    (Op2::Ne, 0, 1, 1),
    (Op2::Ne, 0, LAST, 1),
    (Op2::Ne, LAST, LAST, 0),
    (Op2::Ne, LAST, 1, 1),
    (Op2::Ne, GREATEST, LEAST, 1),
];

#[test]
fn operators_agree_with_whole_numbers(rt: HostRuntime) {
    for (op, a, b, answer) in ROWS.as_slice() {
        let found = binary(*op, gold(*a), gold(*b));
        same(
            &rt,
            (*op, *a, *b, found),
            (*op, *a, *b, Some(gold(*answer))),
        );
    }
}

#[test]
fn division_by_zero_has_no_answer(rt: HostRuntime) {
    for op in [Op2::Div, Op2::Quot, Op2::Rem] {
        same(&rt, binary(op, gold(5), Gold::ZERO), None);
    }
    same(&rt, Gold::ZERO.inv(), None);
    same(&rt, gold(5).inv(), Some(gold(14757395255531667457)));
}

// An operator, its operand and its answer.
static UNARY_ROWS: [(Op1, u64, u64); 5] = [
    (Op1::Neg, 5, 18446744069414584316),
    (Op1::Not, 0, 1),
    (Op1::Not, LAST, 0),
    (Op1::Compl, 0, 4294967294),
    (Op1::Compl, LAST, 4294967295),
];

#[test]
fn one_operand_agrees_with_whole_numbers(rt: HostRuntime) {
    for (op, a, answer) in UNARY_ROWS.as_slice() {
        same(&rt, unary(*op, gold(*a)).get(), *answer);
    }
}

// A number, and its signed value.
static SIGNED_ROWS: [(u64, i128); 3] = [
    (GREATEST, 9223372034707292160),
    (LEAST, -9223372034707292160),
    (LAST, -1),
];

#[test]
fn signed_values_lie_on_both_sides(rt: HostRuntime) {
    for (a, signed) in SIGNED_ROWS.as_slice() {
        same(&rt, gold(*a).signed(), *signed);
    }
}

// The operands of a product, and the product: p - 1 is -1, and 2^32 is a square root of 2^32 - 1.
static PRODUCTS: [(u64, u64, u64); 2] = [(LAST, LAST, 1), (4294967296, 4294967296, 4294967295)];

#[test]
fn products_wrap_at_p(rt: HostRuntime) {
    for (a, b, product) in PRODUCTS.as_slice() {
        same(&rt, gold(*a).mul(gold(*b)).get(), *product);
    }
}

#[test]
fn numbers_wrap_at_p(rt: HostRuntime) {
    let minus_one = Gold::ZERO.sub(Gold::ONE);
    same(&rt, Gold::new(18446744069414584321), None);
    same(&rt, minus_one.get(), LAST);
    same(&rt, minus_one.add(Gold::ONE).get(), 0);
    same(&rt, minus_one.neg().get(), 1);
    let greatest = Gold::from_wide(340282366920938463463374607431768211455);
    same(&rt, greatest.get(), 18446744065119617024);
}

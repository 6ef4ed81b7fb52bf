ghost use Rattle.std.specs.Prelude.{◌≡◌, ◌≤◌, ◌^◌, length};
ghost use Rattle.gold_ntt.specs.Transform.{IsLength};

use crate::checks::same;
use crate::numbers::{fill, gold};
use gold_field::Gold;
use gold_ntt::{Coset, eval, intt, mul, ntt, root};
use std::process::Abort;

static COEFFICIENTS_8: [u64; 8] = [
    3486784401,
    10460353203,
    31381059609,
    94143178827,
    282429536481,
    847288609443,
    2541865828329,
    7625597484987,
];

static VALUES_8: [u64; 8] = [
    11436652835280,
    16237100675465584048,
    1086017697222167300,
    4431010877438044997,
    18446738351088166681,
    754688669953962188,
    17360721797531282909,
    15470686800200569089,
];

static COSET_VALUES_8: [u64; 8] = [
    6594007800883242168,
    400645640158373022,
    3526161522651708824,
    16661587736254026530,
    12452191523157091441,
    12519961558043682059,
    14323839759352627337,
    7308580765051861111,
];

static COEFFICIENTS_16: [u64; 16] = [
    18446744069414584320,
    18446744069414584319,
    18446744069414584316,
    18446744069414584311,
    18446744069414584304,
    18446744069414584295,
    18446744069414584284,
    18446744069414584271,
    18446744069414584256,
    18446744069414584239,
    18446744069414584220,
    18446744069414584199,
    18446744069414584176,
    18446744069414584151,
    18446744069414584124,
    18446744069414584095,
];

static VALUES_16: [u64; 16] = [
    18446744069414583065,
    540243915593850949,
    35870465465552992,
    324163542956335161,
    36028797018964080,
    828845989959065655,
    18410592124677419105,
    612589560169668683,
    120,
    17978205900916629564,
    36187128572375136,
    18050311820819128392,
    18410715272395620465,
    17690307520435478602,
    18410838420113821793,
    17762308026808180790,
];

static COSET_VALUES_16: [u64; 16] = [
    18445518758955990329,
    5101133030337628412,
    9433820925051144535,
    9422191536624782151,
    9084963022085587752,
    3843911864841310150,
    4060182350378646073,
    16861044003911299649,
    954018776390616,
    99619581322017420,
    5516922339771280069,
    17265865975758840937,
    9362044309565611833,
    8559104804030931406,
    17882570550075989549,
    12634105483829223671,
];

// Each is an exponent `e` and the root of order `2 ^ e`.
static ROOTS: [(u32, u64); 9] = [
    (0, 1),
    (1, 18446744069414584320),
    (2, 281474976710656),
    (3, 18446744069397807105),
    (10, 11353340290879379826),
    (16, 6115771955107415310),
    (20, 3511170319078647661),
    (31, 4614640910117430873),
    (32, 1753635133440165772),
];

fn are(rt: &impl Abort, room: &[Gold], list: &[u64]) {
    same(rt, room.len(), list.len());
    for (place, n) in room.iter().zip(list) {
        same(rt, place.get(), *n);
    }
}

// A transform and its inverse against numbers that plain sums gave.
fn agree(rt: &impl Abort, room: &mut [Gold], coefs: &[u64], values: &[u64])
    requires { IsLength (length room.old) }
{
    fill(room, coefs);
    ntt(room);
    are(rt, room, values);
    intt(room);
    are(rt, room, coefs);
}

// So for the values at 7 times the powers of the root.
fn agree_at_seven<R: AllocGlobal + Abort>(rt: &R, log: u32, room: &mut [Gold], values: &[u64])
    requires small { log ≤ 20 }
    requires whole { length room.old ≡ 2 ^ log }
{
    let first = eval(room, gold(7)).get();
    same(rt, Some(first), values.first().copied());
    let points = Coset::of(rt.alloc(), log).expect(rt, "memory");
    let count = room.len();
    points.transform(room, count);
    are(rt, room, values);
}

#[test]
fn transforms_agree_with_plain_sums(rt: HostRuntime) {
    let mut room = [Gold::ZERO; 8];
    agree(&rt, &mut room, &COEFFICIENTS_8, &VALUES_8);
    agree_at_seven(&rt, 3, &mut room, &COSET_VALUES_8);
    let mut room = [Gold::ZERO; 16];
    agree(&rt, &mut room, &COEFFICIENTS_16, &VALUES_16);
    agree_at_seven(&rt, 4, &mut room, &COSET_VALUES_16);
}

#[test]
fn one_has_the_value_1_everywhere(rt: HostRuntime) {
    let mut room = [Gold::ONE, Gold::ZERO, Gold::ZERO, Gold::ZERO];
    ntt(&mut room);
    are(&rt, &room, &[1, 1, 1, 1]);
}

#[test]
fn the_square_of_1_and_x(rt: HostRuntime) {
    let one_and_x = [Gold::ONE, Gold::ONE];
    let square = mul(rt.alloc(), &one_and_x, &one_and_x).expect(&rt, "memory");
    are(&rt, &square, &[1, 2, 1]);
    let none = mul(rt.alloc(), &one_and_x, &[]).expect(&rt, "memory");
    are(&rt, &none, &[]);
}

#[test]
fn roots_have_their_orders(rt: HostRuntime) {
    for (e, number) in ROOTS.as_slice() {
        if *e <= 32 {
            same(&rt, root(*e).get(), *number);
        }
    }
    same(&rt, root(32).pow(2147483648).get(), 18446744069414584320);
}

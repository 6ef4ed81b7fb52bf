//! Repeats a call of the field or of the transforms and prints a checksum, so that the time can be
//! compared with the same loop in another language. The arguments are the call, the size and how
//! often.
#![tactic(auto)]

ghost use Rattle.std.specs.Prelude.{◌≡◌, ◌≤◌, ◌<◌, ◌^◌, ℕ, length, slice_index, IfOk};
ghost use Rattle.gold_ntt.specs.Transform.{IsLength};

use gold_field::{Gold, Op2, binary};
use gold_ntt::{Coset, intt, ntt, sum_of_products};
use std::alloc::{AllocError, Global};
use std::{env, io};

fn main(rt: HostRuntime) -> io::Result<()> {
    let mut words = env::args(&rt)?;
    let _program = words.next();
    let call = words.next();
    let size = number(words.next());
    let times = number(words.next());
    let sum = match call {
        Some(call) => match call.as_str() {
            "mul" => products(times),
            "inv" => inverses(times),
            "shift" => shifts(times),
            "ntt" => transforms(rt.alloc(), size, times)?,
            "coset" => coset_values(rt.alloc(), size, times)?,
            "dot" => dots(rt.alloc(), size, times)?,
            _ => Gold::ZERO,
        },
        None => Gold::ZERO,
    };
    let sum = sum.get();
    println!(rt; "{sum}")?;
    Ok(())
}

fn number(word: Option<String>) -> u64 {
    match word {
        Some(word) => word.parse().unwrap_or(0),
        None => 0,
    }
}

fn first() -> Gold {
    Gold::from_wide(123456789012345678)
}

fn products(times: u64) -> Gold {
    let mut x = first();
    for _ in 0..times {
        x = x.mul(x);
    }
    x
}

fn inverses(times: u64) -> Gold {
    let mut x = first();
    for _ in 0..times {
        x = x.inv().unwrap_or(Gold::ZERO).add(Gold::ONE);
    }
    x
}

fn shifts(times: u64) -> Gold {
    let mut x = first();
    for i in 0..times {
        let places = Gold::from_wide((i % 64) as u128);
        x = binary(Op2::Shl, x, places)
            .unwrap_or(Gold::ZERO)
            .add(first());
    }
    x
}

/// Each transform takes the values of the one before as coefficients.
fn transforms(alloc: Global, size: u64, times: u64) -> Result<Gold, AllocError> {
    let log = size.min(20) as u32;
    let mut a = numbers(alloc, log)?;
    repeat(&mut a, times);
    Ok(a.iter().fold(Gold::ZERO, |sum, x| sum.add(*x)))
}

/// The values of polynomials of a fourth as many coefficients: the first values are the next one's
/// coefficients.
fn coset_values(alloc: Global, size: u64, times: u64) -> Result<Gold, AllocError> {
    let log = size.min(20) as u32;
    let coset = Coset::of(alloc, log)?;
    let mut a = numbers(alloc, log)?;
    evaluate(&coset, &mut a, times);
    Ok(a.iter().fold(Gold::ZERO, |sum, x| sum.add(*x)))
}

fn evaluate(coset: &Coset, a: &mut [Gold], times: u64)
    requires { length a.old ≡ 2 ^ coset.now.log }
{
    let count = a.len() / 4;
    for _ in 0..times {
        clear(a, count);
        coset.transform(a, count);
    }
}

fn clear(a: &mut [Gold], count: usize)
    ensures { (i : ℕ) → count ≤ i → i < length a.old → slice_index a.new i ≡ 0 }
{
    for i in count..a.len() {
        a[i] = Gold::ZERO;
    }
}

/// Sums of products of the numbers with themselves; each sum takes the first place.
fn dots(alloc: Global, size: u64, times: u64) -> Result<Gold, AllocError> {
    let mut a = numbers(alloc, size.min(20) as u32)?;
    let mut sum = Gold::ZERO;
    for _ in 0..times {
        sum = sum_of_products(&a, &a);
        if let Some(first) = a.first_mut() {
            *first = sum;
        }
    }
    Ok(sum)
}

fn numbers(alloc: Global, log: u32) -> Result<Vec<Gold>, AllocError>
    requires { log ≤ 20 }
    ensures length { IfOk result (λ v. IsLength (length v.items)) }
    ensures size { IfOk result (λ v. length v.items ≡ 2 ^ log) }
{
    let mut all = Vec::new(alloc);
    all.resize(1usize << log, Gold::ZERO)?;
    let mut x = first();
    for place in all.iter_mut() {
        *place = x;
        x = x.mul(x);
    }
    Ok(all)
}

fn repeat(a: &mut [Gold], times: u64)
    requires { IsLength (length a.old) }
{
    for _ in 0..times {
        ntt(a);
    }
    intt(a);
}

//! Circuits.

use crate::stores::{put_file, sources};
use out_io::MemStore;
use std::alloc::{AllocError, Global};

/// The template `Mul`, of a product.
pub static MUL: &str =
    "template Mul() { signal input a; signal input b; signal output c; c <== a*b; }";

// Templates that the circuits below include.
static LIBRARY: &str = "template Operators() {
  signal output out[11];
  out[0] <== 9223372034707292160 < 9223372034707292161; out[1] <== ~0; out[2] <== 3 << 63;
  out[3] <== 1/2; out[4] <== 1\\2; out[5] <== 3 - 5; out[6] <== 5 % 3; out[7] <== 2**64;
  out[8] <== -1 >> 1; out[9] <== 1 << (0 - 1); out[10] <== 18446744069414584321;
}
template IsZero() {
  signal input in; signal output out; signal inv;
  inv <-- in != 0 ? 1/in : 0;
  out <== -in*inv + 1;
  in*out === 0;
}
template Num2Bits(n) {
  signal input in; signal output out[n]; var lc1 = 0; var e2 = 1;
  for (var i = 0; i < n; i++) {
    out[i] <-- (in >> i) & 1; out[i]*(out[i] - 1) === 0; lc1 += out[i]*e2; e2 = e2 + e2;
  }
  lc1 === in;
}
template LessThan(n) {
  signal input in[2]; signal output out;
  component n2b = Num2Bits(n+1);
  n2b.in <== in[0] + (1<<n) - in[1];
  out <== 1 - n2b.out[n];
}
template Two() {
  signal input a; signal input b; signal input c; signal output out; signal d;
  d <== a*b; out <== d*c;
}
template Choice(n) { signal input in; signal output x; if (n) { x <== 1; } else { x <== 2; } }
template Chain(n) {
  signal input a; signal output b; signal x[n];
  x[0] <== a; for (var i = 1; i < n; i++) { x[i] <== x[i-1]; } b <== x[n-1];
}
template Deep(n) {
  signal input x; signal output y; component c;
  if (n == 0) { y <== x; } else { c = Deep(n-1); c.x <== x; y <== c.y; }
}
function K(t) { if (t == 2) { return [5, 7]; } else { return [0]; } }
template Table() { signal input a; signal output b; var c[2] = K(2); b <== a*c[0] + c[1]; }
template Mul() { signal input a; signal input b; signal output c; c <== a*b; }
template Anonymous() {
  signal input x; signal input y; signal output z; z <== Mul()(x, y) + Mul()(b <== y, a <== 2*x);
}
template Both() {
  signal input i[2]; signal output s; signal output d; s <== i[0] + i[1]; d <== i[0] - i[1];
}
template Tuples() {
  signal input in[2]; signal output o[2]; signal w[2]; w <== in;
  (o[0], _) <== Both()(w); (_, o[1]) <== Both()([in[1], in[0]]);
}
";

/// A store of the library and of a source that includes it and ends with this main component.
pub fn with_library(alloc: Global, main: &str) -> Result<MemStore, AllocError> {
    let mut store = sources(alloc, &[("lib.circom", LIBRARY)])?;
    let source = format!(in alloc; "include \"lib.circom\"; component main {main};")?;
    put_file(alloc, &mut store, "t.circom", source.as_bytes())?;
    Ok(store)
}

/// `circuits/bits.circom`.
pub const TEXT: &str = "pragma circom 2.1.0;
include \"comparators.circom\";
template Num2Bits(n) {
  assert(1 <= n && n <= 63);
  signal input in;
  signal output out[n];
  var sum = 0;
  for (var i = 0; i < n; i++) {
    out[i] <-- (in >> i) & 1;
    out[i]*(out[i] - 1) === 0;
    sum += out[i]*(1 << i);
  }
  sum === in;
}
template Bits2Num(n) {
  assert(1 <= n && n <= 63);
  signal input in[n];
  signal output out;
  var sum = 0;
  for (var i = 0; i < n; i++) { sum += in[i]*(1 << i); }
  out <== sum;
}
template AssertBelowOrder() {
  signal input in[64];
  var low = 0;
  var high = 0;
  for (var i = 0; i < 32; i++) {
    low += in[i]*(1 << i);
    high += in[i + 32]*(1 << i);
  }
  signal full <== IsZero()(high - 4294967295);
  full*low === 0;
}
template Num2Bits64() {
  signal input in;
  signal output out[64];
  var sum = 0;
  for (var i = 0; i < 64; i++) {
    out[i] <-- (in >> i) & 1;
    out[i]*(out[i] - 1) === 0;
    sum += out[i]*2**i;
  }
  sum === in;
  AssertBelowOrder()(out);
}
template Bits2Num64() {
  signal input in[64];
  signal output out;
  AssertBelowOrder()(in);
  var sum = 0;
  for (var i = 0; i < 64; i++) { sum += in[i]*2**i; }
  out <== sum;
}
";

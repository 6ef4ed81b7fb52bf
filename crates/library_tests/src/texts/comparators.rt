/// `circuits/comparators.circom`.
pub const TEXT: &str = "pragma circom 2.1.0;
include \"bits.circom\";
template IsZero() {
  signal input in;
  signal output out;
  signal inverse <-- in == 0 ? 0 : 1/in;
  out <== 1 - in*inverse;
  in*out === 0;
  inverse*out === 0;
}
template IsEqual() {
  signal input in[2];
  signal output out;
  out <== IsZero()(in[0] - in[1]);
}
template AreZero(n) {
  assert(1 <= n && n <= 65536);
  signal input in[n];
  signal output out;
  var sum = 0;
  for (var i = 0; i < n; i++) { sum += in[i]; }
  out <== IsZero()(sum);
}
template ForceEqualIfEnabled() {
  signal input enabled;
  signal input in[2];
  enabled*(in[0] - in[1]) === 0;
}
template LessThan(n) {
  assert(1 <= n && n <= 62);
  signal input in[2];
  signal output out;
  signal bits[n + 1] <== Num2Bits(n + 1)(in[0] - in[1] + (1 << n));
  out <== 1 - bits[n];
}
template LessEqThan(n) {
  signal input in[2];
  signal output out;
  out <== LessThan(n)([in[0], in[1] + 1]);
}
template GreaterThan(n) {
  signal input in[2];
  signal output out;
  out <== LessThan(n)([in[1], in[0]]);
}
template GreaterEqThan(n) {
  signal input in[2];
  signal output out;
  out <== LessThan(n)([in[1], in[0] + 1]);
}
template LessThanChecked(n) {
  signal input in[2];
  signal output out;
  _ <== Num2Bits(n)(in[0]);
  _ <== Num2Bits(n)(in[1]);
  out <== LessThan(n)(in);
}
template LessThan64() {
  signal input in[2];
  signal output out;
  signal bits[2][64];
  signal half[2][2];
  for (var k = 0; k < 2; k++) {
    bits[k] <== Num2Bits64()(in[k]);
    for (var h = 0; h < 2; h++) {
      var sum = 0;
      for (var i = 0; i < 32; i++) { sum += bits[k][32*h + i]*(1 << i); }
      half[k][h] <== sum;
    }
  }
  signal low <== LessThan(32)([half[0][0], half[1][0]]);
  signal high <== LessThan(32)([half[0][1], half[1][1]]);
  signal same <== IsEqual()([half[0][1], half[1][1]]);
  out <== high + same*low;
}
template IsNegative() {
  signal input in;
  signal output out;
  out <== LessThan64()([9223372034707292160, in]);
}
template MinMax(n) {
  signal input in[2];
  signal output min;
  signal output max;
  signal less <== LessThan(n)(in);
  min <== less*(in[0] - in[1]) + in[1];
  max <== in[0] + in[1] - min;
}
";

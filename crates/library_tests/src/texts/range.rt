/// `circuits/range.circom`.
pub const TEXT: &str = "pragma circom 2.1.0;
include \"bits.circom\";
function bit_length(n) {
  var k = 1;
  while (n >> k) { k++; }
  return k;
}
template AssertBit() {
  signal input in;
  in*(in - 1) === 0;
}
template AssertBits(n) {
  signal input in[n];
  for (var i = 0; i < n; i++) { in[i]*(in[i] - 1) === 0; }
}
template AssertRange(n) {
  signal input in;
  _ <== Num2Bits(n)(in);
}
template AssertRanges(k, n) {
  signal input in[k];
  for (var i = 0; i < k; i++) { _ <== Num2Bits(n)(in[i]); }
}
template AssertBetween(low, high) {
  var k = bit_length(high - low);
  assert(k <= 62);
  signal input in;
  _ <== Num2Bits(k)(in - low);
  _ <== Num2Bits(k)(high - in);
}
template AssertNonZero() {
  signal input in;
  signal inverse <-- in == 0 ? 0 : 1/in;
  in*inverse === 1;
}
template AssertDistinct(n) {
  assert(n >= 2);
  signal input in[n];
  var pairs = n*(n - 1) \\ 2;
  signal product[pairs + 1];
  product[0] <== 1;
  var k = 0;
  for (var i = 0; i < n; i++) {
    for (var j = 0; j < i; j++) {
      product[k + 1] <== product[k]*(in[i] - in[j]);
      k++;
    }
  }
  AssertNonZero()(product[pairs]);
}
";

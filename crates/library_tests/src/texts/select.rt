/// `circuits/select.circom`.
pub const TEXT: &str = "pragma circom 2.1.0;
template Choose() {
  signal input condition;
  signal input then;
  signal input otherwise;
  signal output out;
  out <== condition*(then - otherwise) + otherwise;
}
template Switcher() {
  signal input sel;
  signal input L;
  signal input R;
  signal output outL;
  signal output outR;
  outL <== sel*(R - L) + L;
  outR <== L + R - outL;
}
template MultiMux(n, k) {
  assert(1 <= n && n <= 16);
  signal input c[1 << n][k];
  signal input s[n];
  signal output out[k];
  signal row[(2 << n) - 1][k];
  for (var i = 0; i < (1 << n); i++) { row[(1 << n) - 1 + i] <== c[i]; }
  for (var depth = n - 1; depth >= 0; depth--) {
    for (var i = (1 << depth) - 1; i < (2 << depth) - 1; i++) {
      for (var j = 0; j < k; j++) {
        row[i][j] <== s[n - 1 - depth]*(row[2*i + 2][j] - row[2*i + 1][j]) + row[2*i + 1][j];
      }
    }
  }
  out <== row[0];
}
template Mux(n) {
  signal input c[1 << n];
  signal input s[n];
  signal output out;
  component rows = MultiMux(n, 1);
  for (var i = 0; i < (1 << n); i++) { rows.c[i][0] <== c[i]; }
  rows.s <== s;
  out <== rows.out[0];
}
template Decoder(n) {
  signal input in;
  signal output out[n];
  var sum = 0;
  for (var i = 0; i < n; i++) {
    out[i] <-- in == i;
    out[i]*(in - i) === 0;
    sum += out[i];
  }
  sum === 1;
}
template SelectRow(n, k) {
  signal input in[n][k];
  signal input index;
  signal output out[k];
  signal hot[n] <== Decoder(n)(index);
  signal term[n][k];
  for (var j = 0; j < k; j++) {
    var sum = 0;
    for (var i = 0; i < n; i++) {
      term[i][j] <== hot[i]*in[i][j];
      sum += term[i][j];
    }
    out[j] <== sum;
  }
}
template Select(n) {
  signal input in[n];
  signal input index;
  signal output out;
  signal hot[n] <== Decoder(n)(index);
  signal term[n];
  var sum = 0;
  for (var i = 0; i < n; i++) {
    term[i] <== hot[i]*in[i];
    sum += term[i];
  }
  out <== sum;
}
template Replace(n) {
  signal input in[n];
  signal input index;
  signal input value;
  signal output out[n];
  signal hot[n] <== Decoder(n)(index);
  for (var i = 0; i < n; i++) { out[i] <== hot[i]*(value - in[i]) + in[i]; }
}
";

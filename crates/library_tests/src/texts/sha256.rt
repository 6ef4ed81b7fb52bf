/// `circuits/sha256.circom`.
pub const TEXT: &str = "pragma circom 2.1.0;
include \"bits.circom\";
include \"sha256_constants.circom\";
template Sha256Schedule() {
  signal input block[16][32];
  signal output word[64][32];
  signal both[2][48][32];
  signal mixed[2][48][32];
  component sum[48];
  for (var t = 0; t < 16; t++) { word[t] <== block[t]; }
  for (var t = 16; t < 64; t++) {
    var total = 0;
    for (var i = 0; i < 32; i++) {
      for (var s = 0; s < 2; s++) {
        var from = s ? t - 2 : t - 15;
        var a = word[from][(i + (s ? 17 : 7)) % 32];
        var b = word[from][(i + (s ? 19 : 18)) % 32];
        var shift = i + (s ? 10 : 3);
        var c = shift < 32 ? word[from][shift] : 0;
        both[s][t - 16][i] <== a*b;
        var two = a + b - 2*both[s][t - 16][i];
        mixed[s][t - 16][i] <== c*(1 - 2*two) + two;
      }
      total += (word[t - 16][i] + word[t - 7][i] + mixed[0][t - 16][i] + mixed[1][t - 16][i])
        *(1 << i);
    }
    sum[t - 16] = Num2Bits(34);
    sum[t - 16].in <== total;
    for (var i = 0; i < 32; i++) { word[t][i] <== sum[t - 16].out[i]; }
  }
}
template Sha256Compression() {
  signal input before[8][32];
  signal input block[16][32];
  signal output after[8][32];
  signal word[64][32] <== Sha256Schedule()(block);
  signal a[68][32];
  signal e[68][32];
  signal both[3][64][32];
  signal big[2][64][32];
  signal majority[64][32];
  signal chosen[64][32];
  component sum_a[64];
  component sum_e[64];
  component sum[8];
  for (var k = 0; k < 4; k++) {
    a[k] <== before[3 - k];
    e[k] <== before[7 - k];
  }
  for (var t = 0; t < 64; t++) {
    var first = sha256_constant(t);
    var second = 0;
    var d = 0;
    for (var i = 0; i < 32; i++) {
      var p = a[t + 3][(i + 2) % 32];
      var q = a[t + 3][(i + 13) % 32];
      var r = a[t + 3][(i + 22) % 32];
      both[0][t][i] <== q*r;
      big[0][t][i] <== p*(1 - 2*q - 2*r + 4*both[0][t][i]) + q + r - 2*both[0][t][i];
      p = e[t + 3][(i + 6) % 32];
      q = e[t + 3][(i + 11) % 32];
      r = e[t + 3][(i + 25) % 32];
      both[1][t][i] <== q*r;
      big[1][t][i] <== p*(1 - 2*q - 2*r + 4*both[1][t][i]) + q + r - 2*both[1][t][i];
      chosen[t][i] <== e[t + 3][i]*(e[t + 2][i] - e[t + 1][i]) + e[t + 1][i];
      both[2][t][i] <== a[t + 2][i]*a[t + 1][i];
      majority[t][i] <== a[t + 3][i]*(a[t + 2][i] + a[t + 1][i] - 2*both[2][t][i]) + both[2][t][i];
      first += (e[t][i] + big[1][t][i] + chosen[t][i] + word[t][i])*(1 << i);
      second += (big[0][t][i] + majority[t][i])*(1 << i);
      d += a[t][i]*(1 << i);
    }
    sum_a[t] = Num2Bits(35);
    sum_a[t].in <== first + second;
    sum_e[t] = Num2Bits(35);
    sum_e[t].in <== d + first;
    for (var i = 0; i < 32; i++) {
      a[t + 4][i] <== sum_a[t].out[i];
      e[t + 4][i] <== sum_e[t].out[i];
    }
  }
  for (var k = 0; k < 8; k++) {
    var total = 0;
    for (var i = 0; i < 32; i++) {
      total += (before[k][i] + (k < 4 ? a[67 - k][i] : e[71 - k][i]))*(1 << i);
    }
    sum[k] = Num2Bits(33);
    sum[k].in <== total;
    for (var i = 0; i < 32; i++) { after[k][i] <== sum[k].out[i]; }
  }
}
template Sha256Blocks(n) {
  signal input in[n][16][32];
  signal output out[8][32];
  signal state[n + 1][8][32];
  for (var j = 0; j < 8; j++) {
    var start = sha256_start(j);
    for (var i = 0; i < 32; i++) { state[0][j][i] <== (start >> i) & 1; }
  }
  for (var k = 0; k < n; k++) { state[k + 1] <== Sha256Compression()(state[k], in[k]); }
  out <== state[n];
}
template Sha256(n) {
  signal input in[n];
  signal output out[32];
  var blocks = (n + 8) \\ 64 + 1;
  signal block[blocks][16][32];
  signal bits[n][8];
  for (var k = 0; k < 64*blocks; k++) {
    if (k < n) { bits[k] <== Num2Bits(8)(in[k]); }
    for (var i = 0; i < 8; i++) {
      var bit = k == n && i == 7;
      if (k >= 64*blocks - 8) { bit = (8*n >> (8*(64*blocks - 1 - k) + i)) & 1; }
      block[k \\ 64][k % 64 \\ 4][8*(3 - k % 4) + i] <== k < n ? bits[k][i] : bit;
    }
  }
  signal state[8][32] <== Sha256Blocks(blocks)(block);
  for (var k = 0; k < 32; k++) {
    var sum = 0;
    for (var i = 0; i < 8; i++) { sum += state[k \\ 4][8*(3 - k % 4) + i]*(1 << i); }
    out[k] <== sum;
  }
}
";

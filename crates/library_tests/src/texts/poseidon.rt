/// `circuits/poseidon.circom`.
pub const TEXT: &str = "pragma circom 2.1.0;
include \"poseidon_constants.circom\";
template PoseidonPermutation() {
  signal input in[12];
  signal output out[12];
  var half = poseidon_full_rounds() \\ 2;
  var partial = poseidon_partial_rounds();
  var rounds = 2*half + partial;
  var boxes = 24*half + partial;
  var constants[12*rounds] = poseidon_constants();
  var matrix[12][12] = poseidon_matrix();
  signal second[boxes];
  signal third[boxes];
  signal sixth[boxes];
  signal seventh[boxes];
  var state[12] = in;
  var box = 0;
  for (var r = 0; r < rounds; r++) {
    var raised[12];
    for (var i = 0; i < 12; i++) {
      raised[i] = state[i] + constants[12*r + i];
      if (i == 0 || r < half || r >= half + partial) {
        second[box] <== raised[i]*raised[i];
        third[box] <== second[box]*raised[i];
        sixth[box] <== third[box]*third[box];
        seventh[box] <== sixth[box]*raised[i];
        raised[i] = seventh[box];
        box++;
      }
    }
    for (var i = 0; i < 12; i++) {
      state[i] = matrix[i][0]*raised[0] + matrix[i][1]*raised[1] + matrix[i][2]*raised[2]
        + matrix[i][3]*raised[3] + matrix[i][4]*raised[4] + matrix[i][5]*raised[5]
        + matrix[i][6]*raised[6] + matrix[i][7]*raised[7] + matrix[i][8]*raised[8]
        + matrix[i][9]*raised[9] + matrix[i][10]*raised[10] + matrix[i][11]*raised[11];
    }
  }
  for (var i = 0; i < 12; i++) { out[i] <== state[i]; }
}
template PoseidonHash(n) {
  signal input in[n];
  signal output out[4];
  var blocks = n \\ 8 + 1;
  component permutation[blocks];
  for (var k = 0; k < blocks; k++) {
    permutation[k] = PoseidonPermutation();
    for (var i = 0; i < 12; i++) {
      var word = k > 0 ? permutation[k - 1].out[i] : 0;
      if (i < 8 && 8*k + i < n) { word += in[8*k + i]; }
      if (i < 8 && 8*k + i == n) { word += 1; }
      permutation[k].in[i] <== word;
    }
  }
  for (var i = 0; i < 4; i++) { out[i] <== permutation[blocks - 1].out[i]; }
}
template PoseidonNode() {
  signal input left[4];
  signal input right[4];
  signal output out[4];
  component permutation = PoseidonPermutation();
  for (var i = 0; i < 4; i++) {
    permutation.in[i] <== left[i];
    permutation.in[i + 4] <== right[i];
    permutation.in[i + 8] <== i == 0;
  }
  for (var i = 0; i < 4; i++) { out[i] <== permutation.out[i]; }
}
";

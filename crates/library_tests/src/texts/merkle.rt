/// `circuits/merkle.circom`.
pub const TEXT: &str = "pragma circom 2.1.0;
include \"range.circom\";
include \"select.circom\";
include \"sha256.circom\";
include \"poseidon.circom\";
template Sha256Leaf(n) {
  signal input in[n];
  signal output out[32];
  component digest = Sha256(n + 1);
  digest.in[0] <== 0;
  for (var i = 0; i < n; i++) { digest.in[i + 1] <== in[i]; }
  out <== digest.out;
}
template Sha256Node() {
  signal input left[32];
  signal input right[32];
  signal output out[32];
  component digest = Sha256(65);
  digest.in[0] <== 1;
  for (var i = 0; i < 32; i++) {
    digest.in[i + 1] <== left[i];
    digest.in[i + 33] <== right[i];
  }
  out <== digest.out;
}
template SwitchRows(k) {
  signal input sel;
  signal input a[k];
  signal input b[k];
  signal output left[k];
  signal output right[k];
  for (var i = 0; i < k; i++) { (left[i], right[i]) <== Switcher()(sel, a[i], b[i]); }
}
template Sha256Root(depth) {
  signal input leaf[32];
  signal input place[depth];
  signal input path[depth][32];
  signal output root[32];
  signal digest[depth + 1][32];
  signal left[depth][32];
  signal right[depth][32];
  AssertBits(depth)(place);
  digest[0] <== leaf;
  for (var k = 0; k < depth; k++) {
    (left[k], right[k]) <== SwitchRows(32)(place[k], digest[k], path[k]);
    digest[k + 1] <== Sha256Node()(left[k], right[k]);
  }
  root <== digest[depth];
}
template PoseidonRoot(depth) {
  signal input leaf[4];
  signal input place[depth];
  signal input path[depth][4];
  signal output root[4];
  signal digest[depth + 1][4];
  signal left[depth][4];
  signal right[depth][4];
  AssertBits(depth)(place);
  digest[0] <== leaf;
  for (var k = 0; k < depth; k++) {
    (left[k], right[k]) <== SwitchRows(4)(place[k], digest[k], path[k]);
    digest[k + 1] <== PoseidonNode()(left[k], right[k]);
  }
  root <== digest[depth];
}
template AssertSha256Member(depth, n) {
  signal input leaf[n];
  signal input place[depth];
  signal input path[depth][32];
  signal input root[32];
  signal digest[32] <== Sha256Leaf(n)(leaf);
  signal found[32] <== Sha256Root(depth)(digest, place, path);
  for (var i = 0; i < 32; i++) { found[i] === root[i]; }
}
template AssertPoseidonMember(depth, n) {
  signal input leaf[n];
  signal input place[depth];
  signal input path[depth][4];
  signal input root[4];
  signal digest[4] <== PoseidonHash(n)(leaf);
  signal found[4] <== PoseidonRoot(depth)(digest, place, path);
  for (var i = 0; i < 4; i++) { found[i] === root[i]; }
}
";

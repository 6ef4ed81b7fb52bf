// A hash, a Merkle leaf and a sorting network, from their sources to their outputs.
use crate::texts::FILES;
use command_samples::{put_file, run_words, sources};
use out_io::MemStore;
use std::alloc::{AllocError, Global};
use std::process::Abort;
use std::sync::Wait;
use std::thread::Threads;

// A store of the circuits, of a source and of an input.
fn with_circuits(alloc: Global, source: &str, input: &str) -> Result<MemStore, AllocError> {
    let mut store = sources(alloc, &FILES)?;
    put_file(alloc, &mut store, "t.circom", source.as_bytes())?;
    put_file(alloc, &mut store, "t.json", input.as_bytes())?;
    Ok(store)
}

// Runs each of the words, and ends the test unless it ends with this status and says this.
fn say_all<R: Threads + Wait + AllocGlobal + Sync + Abort>(
    rt: &R,
    store: &mut MemStore,
    rows: &[(&str, u8, &str)],
) {
    for (words, status, line) in rows {
        let ran = run_words(rt, words, store).expect(rt, "memory");
        assert_eq!(rt; ran.text.as_slice(), line.as_bytes());
        assert_eq!(rt; ran.status, *status);
    }
}

// Ends the test unless the store has a file of this text.
fn holds(rt: &impl Abort, store: &MemStore, name: &str, text: &str) {
    let found = store.files.get(name).map(|bytes| bytes.as_slice());
    assert_eq!(rt; found, Some(text.as_bytes()));
}

// The hash of the bytes of "abc", by FIPS 180-4.
static ABC: &str = "[\"186\",\"120\",\"22\",\"191\",\"143\",\"1\",\"207\",\"234\",\"65\",\"65\",\
    \"64\",\"222\",\"93\",\"174\",\"34\",\"35\",\"176\",\"3\",\"97\",\"163\",\"150\",\"23\",\
    \"122\",\"156\",\"180\",\"16\",\"255\",\"97\",\"242\",\"0\",\"21\",\"173\"]";

#[test]
fn sha_256_of_three_bytes(rt: HostRuntime) {
    let source = "include \"sha256.circom\"; component main = Sha256(3);";
    let store = with_circuits(rt.alloc(), source, "{\"in\": [97, 98, 99]}");
    let mut store = store.expect(&rt, "memory");
    say_all(
        &rt,
        &mut store,
        &[
            (
                "compile t.circom t.r1cs -l lib",
                0,
                "compiled: wires 25666, constraints 25849\n",
            ),
            (
                "witness t.circom t.json t.wtns -l lib",
                0,
                "witness: values 25666\n",
            ),
            ("check t.r1cs t.wtns", 0, "satisfied\n"),
            ("public t.r1cs t.wtns t.out", 0, "public: values 32\n"),
        ],
    );
    holds(&rt, &store, "t.out", ABC);
}

// The words -1 and 1 in the leaf at place 1 of a tree of four, by a computation of its own: the
// path has the leaf beside it, then the node beside both.
static MEMBER: &str = "{\"leaf\": [18446744069414584320, 1], \"place\": [1, 0], \"path\": [
  [16155930452520925743, 16844025902844185647, 16638004116652784599, 4453235409668530228],
  [10432362308684994612, 8832397825099603914, 14881688202800106090, 17249852360592768646]],
  \"root\": [5543363187780527625, 15677822864532082261, 12042802494927571896,
  9187527022426460353]}";

// Another leaf at its place.
static STRANGER: &str = "{\"leaf\": [3, 5], \"place\": [1, 0], \"path\": [
  [16155930452520925743, 16844025902844185647, 16638004116652784599, 4453235409668530228],
  [10432362308684994612, 8832397825099603914, 14881688202800106090, 17249852360592768646]],
  \"root\": [5543363187780527625, 15677822864532082261, 12042802494927571896,
  9187527022426460353]}";

#[test]
fn a_leaf_of_a_merkle_tree_and_another_at_its_place(rt: HostRuntime) {
    let source = "include \"merkle.circom\";
        component main {public [root]} = AssertPoseidonMember(2, 2);";
    let store = with_circuits(rt.alloc(), source, MEMBER);
    let mut store = store.expect(&rt, "memory");
    let other = put_file(rt.alloc(), &mut store, "other.json", STRANGER.as_bytes());
    other.expect(&rt, "memory");
    say_all(
        &rt,
        &mut store,
        &[
            (
                "compile t.circom t.r1cs -l lib",
                0,
                "compiled: wires 1409, constraints 1398\n",
            ),
            (
                "witness t.circom t.json t.wtns -l lib",
                0,
                "witness: values 1409\n",
            ),
            ("check t.r1cs t.wtns", 0, "satisfied\n"),
            (
                "witness t.circom other.json t.wtns -l lib",
                1,
                "refused: W1 ConstraintFails at lib/merkle.circom:82:33 in main\n",
            ),
        ],
    );
}

#[test]
fn a_sorting_network_whose_inputs_determine_its_outputs(rt: HostRuntime) {
    let source = "include \"sort.circom\"; component main = Sort(5, 8);";
    let store = with_circuits(rt.alloc(), source, "{\"in\": [200, 3, 255, 0, 3]}");
    let mut store = store.expect(&rt, "memory");
    say_all(
        &rt,
        &mut store,
        &[
            (
                "compile t.circom t.r1cs --O1 -l lib",
                0,
                "compiled: wires 163, constraints 171\n",
            ),
            (
                "witness t.circom t.json t.wtns --O1 -l lib",
                0,
                "witness: values 163\n",
            ),
            ("check t.r1cs t.wtns", 0, "satisfied\n"),
            ("public t.r1cs t.wtns t.out", 0, "public: values 5\n"),
            ("determine t.r1cs t.cert", 0, "determined\n"),
            ("confirm t.r1cs t.cert", 0, "confirmed\n"),
        ],
    );
    holds(&rt, &store, "t.out", "[\"0\",\"3\",\"3\",\"200\",\"255\"]");
}

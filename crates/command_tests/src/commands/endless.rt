// Sources that would run without end.
use super::checks::{begins, says};
use command_samples::sources;

static ENDLESS: &str =
    "template T() { var i = 1; while (i) { } signal output y; y <== 1; }\ncomponent main = T();";

#[test]
fn an_endless_loop_ends_at_the_limit_of_statements(rt: HostRuntime) {
    let mut store = sources(rt.alloc(), &[("t.circom", ENDLESS)]).expect(&rt, "memory");
    let line = "refused: E19 Limit Statements 16777217 at ";
    begins(&rt, "compile t.circom m.r1cs", &mut store, 1, line);
}

static RECURSIVE: &str = "function f(x) { return f(x); }
template T() { signal input a; signal output y; y <-- f(a); }
component main = T();";

// The options, and what stops the function that calls itself as it runs.
static STOPS: [(&str, &str); 3] = [
    ("", "W6 TooDeep"),
    ("--fuel 257", "W6 TooDeep"),
    ("--fuel 256", "W5 FuelSpent"),
];

#[test]
fn a_function_that_calls_itself_is_stopped(rt: HostRuntime) {
    let files = [("rec.circom", RECURSIVE), ("i.json", "{\"a\":3}")];
    let mut store = sources(rt.alloc(), &files).expect(&rt, "memory");
    let compiled = "compiled: wires 3, constraints 0\n";
    says(&rt, "compile rec.circom m.r1cs", &mut store, 0, compiled);
    for (options, stop) in STOPS.as_slice() {
        let words = format!(in rt.alloc(); "witness rec.circom i.json m.wtns {options}");
        let line = format!(in rt.alloc(); "refused: {stop} at rec.circom:2:49 in main\n");
        let words = words.expect(&rt, "memory");
        let line = line.expect(&rt, "memory");
        says(&rt, words.as_str(), &mut store, 1, line.as_str());
    }
}

static KNOWN: &str = "function f(x) { return f(x); }
template T() { signal input a; signal output y; y <-- f(1); }
component main = T();";

#[test]
fn a_call_that_is_known_is_refused_as_it_is_compiled(rt: HostRuntime) {
    let mut store = sources(rt.alloc(), &[("rec.circom", KNOWN)]).expect(&rt, "memory");
    let line = "refused: E20 TooDeep at rec.circom:1:17 in main";
    begins(&rt, "compile rec.circom m.r1cs", &mut store, 1, line);
}

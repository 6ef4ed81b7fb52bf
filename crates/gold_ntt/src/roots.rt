ghost use Rattle.std.specs.Prelude.{◌≡◌, ◌≢◌, ℕ, ◌-◌, ◌*◌, ◌%◌, ◌^◌, ◌<◌, ◌≤◌};
ghost use Rattle.gold_field.specs.declared.gold.TheConstants.{P};
ghost use Rattle.gold_ntt.specs.Transform.{root_of};

use gold_field::Gold;

/// 7 ^ (2 ^ 32 - 1) modulo p, of order 2 ^ 32. 7 generates the field's numbers but 0.
pub const ROOT: u64 = 1753635133440165772;

/// The root of unity of order `2 ^ e`.
#[tactic(auto, using(crate::proofs::RootLaws::a_turn), unfolding(crate::specs::Transform::root_of))]
pub fn root(e: u32) -> Gold
    requires { e ≤ 32 }
    ensures value { result ≡ root_of e }
    // Of a variable: the checker would compute the closed power. So the root is pinned, whatever
    // `ROOT` is.
    ensures base { (b : ℕ) → b ≡ 7 → result ≡ b ^ ((2 ^ 32 - 1) * 2 ^ (32 - e)) % P }
    ensures one { result ^ (2 ^ e) % P ≡ 1 }
    ensures half { 0 < e → result ^ (2 ^ (e - 1)) % P ≡ P - 1 }
    ensures order { (k : ℕ) → 0 < k → k < 2 ^ e → result ^ k % P ≢ 1 }
{
    let mut root = Gold::from_wide(ROOT as u128);
    for i in e..32 {
        root = root.mul(root);
    }
    root
}

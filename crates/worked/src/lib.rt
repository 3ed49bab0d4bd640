// Worked figures of the contract terms, which the checker computes from the definitions.
#![tactic(auto)]

ghost use Rattle.std.specs.Prelude.{◌≡◌, length, All};
ghost use Rattle.worked.specs.Cases.{Holds, cases};

// How many worked figures there are. All of them hold.
#[tactic(auto, unfolding(crate::specs::Cases::cases, terms::specs::Ranges::numbers, terms::specs::Ranges::first_out, terms::specs::Ranges::first_from))]
pub fn count_cases() -> usize
    ensures count { result ≡ length cases }
    ensures all_hold { All Holds cases }
{
    16
}

// Laws of flags.
ghost use Rattle.std.specs.Prelude.{◌≡◌, ◌<◌, ◌≤◌, ℕ, true, false, length, map, Some};
ghost use Rattle.lab_view.specs.declared.view.View.{View as AnyView};
ghost use Rattle.lab_view.specs.declared.flags.Flag.{Flag as AnyFlag};
ghost use Rattle.lab_view.specs.Views.{is_held_by};
ghost use Rattle.lab_view.specs.Flags.{tint_of, bar_of, form_of, are_few, flag_of_exp, bar_of_exp};

use crate::flags::MAX_FLAGS;

/// Of 1,024 machines no two have the same flag.
pub fn flags_differ()
    ensures { (m n : ℕ) → m < MAX_FLAGS → n < MAX_FLAGS → tint_of m ≡ tint_of n → bar_of m ≡ bar_of n → form_of m ≡ form_of n → m ≡ n }
{}

/// In a lab of at most 1,024 machines no two experiments have the same flag.
#[tactic(auto, using(crate::proofs::Firsts::flags_apart))]
pub fn experiments_differ()
    ensures { (v : AnyView) (e f : ℕ) (flag : AnyFlag) → length v.machines ≤ MAX_FLAGS → flag_of_exp v e ≡ Some flag → flag_of_exp v f ≡ Some flag → e ≡ f }
{}

/// While few experiments hold machines no two of them have the same tint.
#[tactic(auto, using(crate::proofs::Firsts::tints_apart))]
pub fn tints_differ()
    ensures { (v : AnyView) (e f : ℕ) (x y : AnyFlag) → are_few v ≡ true → flag_of_exp v e ≡ Some x → flag_of_exp v f ≡ Some y → x.tint ≡ y.tint → e ≡ f }
{}

/// The bar of an experiment is the same wherever it holds the same machines, whatever its number and other experiments are. So is its whole
/// flag where these are many.
#[tactic(auto, using(crate::proofs::Holders::bar_stays, crate::proofs::Holders::flag_stays))]
pub fn flags_stay()
    ensures bars { (v w : AnyView) (e f : ℕ) → map (is_held_by e) v.machines ≡ map (is_held_by f) w.machines → bar_of_exp v e ≡ bar_of_exp w f }
    ensures flags { (v w : AnyView) (e f : ℕ) → map (is_held_by e) v.machines ≡ map (is_held_by f) w.machines
        → are_few v ≡ false → are_few w ≡ false → flag_of_exp v e ≡ flag_of_exp w f }
{}

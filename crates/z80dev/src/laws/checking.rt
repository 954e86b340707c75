//! The law about the linker and the checker together.

ghost use Rattle.std.specs.Prelude.{◌≡◌, ◌⊎◌, ℕ, Bool, Err, List, Ok, Result, Vec, length};
ghost use Rattle.std.specs.Global.{Global};
ghost use Rattle.cert_check.specs.declared.cert.Verdict.{Verdict};
ghost use Rattle.cert_check.specs.declared.cert.Verdict.TheVariants as verdict;
ghost use Rattle.cert_check.specs.declared.fault.CheckFault.{CheckFault};
ghost use Rattle.cert_check.specs.declared.fault.CheckFault.TheVariants as check;
ghost use Rattle.cert_check.specs.Checks.{IsChecked};
ghost use Rattle.zlink.specs.declared.building.Built.{Built};
ghost use Rattle.zlink.specs.declared.fault.BuildFault.TheVariants as build;
ghost use Rattle.zlink.specs.declared.fault.LinkFault.TheVariants as link;
ghost use Rattle.zlink.specs.declared.fault.Misfit.{Misfit};
ghost use Rattle.zlink.specs.declared.linking.Linked.{Linked};
ghost use Rattle.zlink.specs.declared.source.Source.{Source};
ghost use Rattle.zlink.specs.Built.{IsBuilt};
ghost use Rattle.zlink.specs.Certified.{told_verdict};
ghost use Rattle.zlink.specs.Judged.{verdict_of};
ghost use Rattle.zlink.specs.Linked.{IsLinked};

/// The checker confirms the sizes file and certificate of a built program with `best` and the program's length, and
/// those of a refusal with its reason. Unless memory runs out, it answers nothing else. The same holds for what is
/// linked from modules.
pub fn checked()
    ensures built { (grow : Bool) (sources : List Source) (b : Built) (answer : Result Verdict CheckFault) → IsBuilt grow sources (Ok b) →
        IsChecked b.sizes.items b.cert.items answer → (answer ≡ Ok (verdict.Best (length b.com.items))) ⊎ (answer ≡ Err check.NoMemory) }
    ensures not_built { (grow : Bool) (sources : List Source) (why : Misfit) (sizes cert : Vec ℕ Global) (answer : Result Verdict CheckFault) →
        IsBuilt grow sources (Err (build.Link (link.NoFit why sizes cert))) →
        IsChecked sizes.items cert.items answer → (answer ≡ Ok (told_verdict (verdict_of why))) ⊎ (answer ≡ Err check.NoMemory) }
    ensures linked { (modules : _) (l : Linked) (answer : Result Verdict CheckFault) → IsLinked modules (Ok l) →
        IsChecked l.sizes.items l.cert.items answer → (answer ≡ Ok (verdict.Best (length l.com.items))) ⊎ (answer ≡ Err check.NoMemory) }
    ensures not_linked { (modules : _) (why : Misfit) (sizes cert : Vec ℕ Global) (answer : Result Verdict CheckFault) →
        IsLinked modules (Err (link.NoFit why sizes cert)) →
        IsChecked sizes.items cert.items answer → (answer ≡ Ok (told_verdict (verdict_of why))) ⊎ (answer ≡ Err check.NoMemory) }
{
    // A law: it does nothing, and this law follows from its contract.
    cert_check::laws::one_answer();
}

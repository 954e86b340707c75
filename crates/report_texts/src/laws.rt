//! Laws about fronts. A law is a function that does nothing and whose clause is a theorem.

ghost use Rattle.std.specs.Prelude.{◌≡◌, ◌≤◌, ◌++◌, ℕ, [], List, None, Option, length, map, true};
ghost use Rattle.std.specs.Borrow.{Bor};
ghost use Rattle.asm_macro.specs.Texts.{source_lines};
ghost use Rattle.zlink.specs.Types.{AsmFault};
ghost use Rattle.report_texts.specs.Faults.Refusals.{of_source, program_refusal_text};
ghost use Rattle.report_texts.specs.Defines.{first_bad};
ghost use Rattle.report_texts.specs.Front.{have_word_bytes, front_lines, front_text, source_fault_text};
ghost use Rattle.report_texts.specs.Shared.{IsFaultOfFront};
ghost use Rattle.report_texts.specs.declared.front.Front.{Front};

use asm_line::laws::scanned;

/// A source after a front has the lines of the front, and then its own. So its line N has the number of lines of the front and N. This needs
/// words without a line feed and without a byte 1AH. All definitions are such words, so it holds if [`bad_define`](crate::bad_define) finds
/// none that is bad.
pub fn lines_behind()
    ensures behind { (front : Front) (text : List ℕ) → have_word_bytes front.defines.now ≡ true → source_lines (front_text front ++ text) ≡ source_lines (front_text front) ++ source_lines text }
    ensures count { (front : Front) → have_word_bytes front.defines.now ≡ true → length (source_lines (front_text front)) ≡ front_lines front }
    ensures words { (words : List (Bor (List ℕ))) → first_bad (map (λ word. word.now) words) ≡ None → have_word_bytes words ≡ true }
{
    // A law: it does nothing, and the last clause follows from its contract.
    scanned();
}

/// A front without words and files has no text, no lines and no error, and changes no error of a source. So what is answered is that for the
/// sources alone.
pub fn no_front()
    ensures text { (front : Front) → front.defines.now ≡ [] → front.files.now ≡ [] → front_text front ≡ [] }
    ensures lines { (front : Front) → front.defines.now ≡ [] → front.files.now ≡ [] → front_lines front ≡ 0 }
    ensures faults { (front : Front) (path : List ℕ) (fault : AsmFault) → front.defines.now ≡ [] → front.files.now ≡ [] → 1 ≤ fault.line → source_fault_text front path fault ≡ program_refusal_text path (of_source fault) }
    ensures faultless { (front : Front) (said : Option (List ℕ)) → front.defines.now ≡ [] → front.files.now ≡ [] → IsFaultOfFront front said → said ≡ None }
{}

//! Laws of reports. Each is the contract of a function that does nothing.

ghost use Rattle.std.specs.Prelude.{◌≡◌, ◌≢◌, ℕ, List, []};
ghost use Rattle.dali_bank.specs.Order.{AreUpdates, Contents};
ghost use Rattle.dali_read.specs.Findings.{IsFound, told_bytes};
ghost use Rattle.dali_read.specs.declared.finding.Finding.{Finding};
ghost use Rattle.dali_report.specs.Differences.{AreDifferences, Difference, held_bank, wanted_bank};

/// The fields that a report tells agree with what was found of an order: none if all is the same, or if none of the
/// order's own locations was read, and at least one if another byte was found.
pub fn fields_agree_with_findings()
    ensures same { (order : Contents) (read : List ℕ) (found : List Difference)
        → IsFound order.updates read Finding.Same
        → AreDifferences (held_bank order read) (wanted_bank order) found → found ≡ [] }
    ensures other { (order : Contents) (read : List ℕ) (found : List Difference) (location byte : ℕ)
        → AreUpdates order.updates → IsFound order.updates read (Finding.Other location byte)
        → AreDifferences (held_bank order read) (wanted_bank order) found → found ≢ [] }
    ensures unread { (order : Contents) (read : List ℕ) (found : List Difference)
        → told_bytes order.updates read ≡ []
        → AreDifferences (held_bank order read) (wanted_bank order) found → found ≡ [] }
{}

//! Laws over the definitions alone.

ghost use Rattle.za_expr.specs.Laws.{
  BuiltAreJobs,
  BuiltHaveNoFault,
  BuiltOnce,
  BuiltOrRefused,
  DocumentsHaveOneJob,
  TextsHaveOneFault,
};

/// A text has one fault, or none.
#[tactic(auto, using(crate::proofs::OneFault::texts_have_one_fault))]
pub fn texts_have_one_fault()
    ensures { TextsHaveOneFault }
{}

/// A document has one job and one built text at most: the numbering of the states by least words fixes the
/// table. Where a text is built, the document has no fault.
pub fn documents_are_built_once()
    ensures job { DocumentsHaveOneJob }
    ensures text { BuiltOnce }
    ensures right { BuiltHaveNoFault }
{}

/// The job of a document without a fault is a job, and each text has a fault or is built: none has neither.
pub fn documents_are_built_or_refused()
    ensures job { BuiltAreJobs }
    ensures text { BuiltOrRefused }
{}

//! What holds of findings. The call does nothing: it is a law of definitions.
ghost use Rattle.lldb_verify.specs.Laws.{FindingsLaws};

/// Nothing is found exactly where a content is empty or sound.
pub fn findings_laws()
    ensures { FindingsLaws }
{}

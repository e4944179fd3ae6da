//! Calls whose contracts are laws.
ghost use Rattle.ql_syntax.specs.StoredParts.{MadeReadBack, PartsReadBack};

/// The parts of what was read are read back, and so is what is put together from such parts. The call does nothing.
pub fn made_laws()
    ensures parts { PartsReadBack }
    ensures made { MadeReadBack }
{}

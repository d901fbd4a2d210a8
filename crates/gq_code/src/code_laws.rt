// What programs and their code are to each other.
ghost use Rattle.gq_code.specs.Laws.{CodeIsBytes, CodeIsReadBack, OnlyCodeIsRead, CodeReportsPrograms, CodeEndsItself, PartsAreRefused};

/// What holds of every program and its code. Each program has one code and each code one program, which is what is decoded of it. No code is a proper prefix of
/// another's, and a part of one is refused. It does nothing.
pub fn code_laws()
    ensures bytes { CodeIsBytes }
    ensures read_back { CodeIsReadBack }
    ensures only_code { OnlyCodeIsRead }
    ensures reports_programs { CodeReportsPrograms }
    ensures ends_itself { CodeEndsItself }
    ensures refuses_parts { PartsAreRefused }
{}

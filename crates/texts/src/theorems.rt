//! Each function holds one theorem in its contract.
ghost use Rattle.texts.specs.Agreement.{TextsAgree};

/// Lines, fields and checks of this crate are those of the semantics.
pub fn texts_agree_stands()
    ensures { TextsAgree }
{}

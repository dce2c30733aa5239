ghost use Rattle.ir_read_body.specs.BodyLaws.{ReadIsBody, BodyIsRead, BeforeFaultBegins, FaultEnds, FaultIsNoBody, NestingGoesOn, TooFewLevels, UnsupportedIsListed, ListedIsUnsupported};

/// The law of bodies: exactly the bodies of the grammar are read, with what they spell, and a fault is at the first token
/// with which no body begins, unless it is one of nesting. Such a fault is at the bracket with which a body begins, but only
/// one of more than 64 levels. Another fault is Unsupported exactly if a form that isn't taken there is at its token. The end
/// of the text is a token.
pub fn bodies_are_derived()
    ensures read { ReadIsBody }
    ensures complete { BodyIsRead }
    ensures before { BeforeFaultBegins }
    ensures at { FaultEnds }
    ensures whole { FaultIsNoBody }
    ensures nesting { NestingGoesOn }
    ensures levels { TooFewLevels }
    ensures unsupported { UnsupportedIsListed }
    ensures listed { ListedIsUnsupported }
{}

// Laws of statements, by the verifier's rules.
ghost use Rattle.std.specs.Prelude.{◌≡◌, ◌≢◌, ℕ, Option};
ghost use Rattle.gq_model.specs.machine.World.{World};
ghost use Rattle.gq_model.specs.machine.Doing.{Doing};
ghost use Rattle.gq_model.specs.rules.Kinds.{Kind, Context, Subject};
ghost use Rattle.gq_model.specs.declared.phase.Phase.TheVariants.{Blocked, Handling};
ghost use Rattle.gq_laws.specs.Session_links.{IsLinkedWorld};
ghost use Rattle.gq_model.specs.rules.Use.{subject};
ghost use Rattle.gq_laws.specs.Section_rules.{BeginsAsRuled, EndsAsRuled};
ghost use Rattle.gq_laws.specs.Reply_stances.{RepliesAsRuled, ResumesAsRuled};
ghost use Rattle.gq_laws.specs.Asking.{ReportsLinks, AsksAsRuled};
ghost use Rattle.gq_laws.specs.Inside_steps.{TakesLeaf, Grants, StartsAsRuled, GoesAsRuled, LeadsAsRuled, LeavesOthers, KeepsToItself, StandElse};
ghost use Rattle.gq_laws.specs.Inside_steps.{KeepsPromises};
ghost use Rattle.gq_laws.specs.Inside_steps.{IsAwake};

/// What statements do if the verifier's rules allow them. But for `asks` these are statements that ask nothing of a session: on operands, locals or memory,
/// with operands in range. "Not wrong" means not wrong but for want of quota.
///
/// `starts`: a leaf at the start of `main` stands where the rules start, if its program has 8 locals.
///
/// `own`: a leaf stands at a state of the rules. A statement that the rules allow there is not wrong. It leaves the leaf at the state that the rules give,
/// with the same statements left and the same current session.
///
/// `leads`: inside a section such a statement, a choice, a loop that is entered and the end of a loop's body are not wrong either. What is left of the
/// section leads, by the rules, from where the leaf stands then to the same end of it.
///
/// `others`: whatever the rules say, such a step keeps every other leaf and the requests. Each session keeps its parts and the kind of its object. One that
/// is not current keeps the kinds of its slots: of those, bytes alone may change, behind a link.
///
/// `stand`: so another leaf stands where it stood, if no session is current at both.
///
/// `kept`: in a linked world such a step keeps what is promised of links and of the buffers behind them.
///
/// `asks`: a leaf stands at a state of the rules, links are as promised, and an `open` leads to a server. A statement that the rules allow and that asks
/// something of a session is not wrong. The leaf waits then. Its request is the last, with an argument in the interface's bound. It stands where the rules
/// say but for the reply, and of its slot is promised what the reply makes of it.
///
/// `begins`: a request asks for a section that is there. The session's slots are of the kinds that the rules have for it, and the argument is in the
/// interface's bound. Taking it up is not wrong, and the leaf stands at the start of that section.
///
/// `ends`: a leaf stands at a state in which its section may end by the rules. The end is not wrong.
///
/// `replies`: in a linked world a current section ends where it may end by the rules. Its server waits for a request then, with the same slots. The session
/// stays with its slots as they are, but a close ends it. Its client is another leaf and goes on. The slot that waited holds the link, or nothing after a
/// close. The reply to a call, in the interface's bound, is on top. All other leaves, slots and requests stay.
///
/// `resumes`: then the client stands where it stood, with the reply to a call in the interface's bound, if of its slot was promised what the reply makes of
/// it. Another leaf with another current session stands where it stood, and no slot of another session is of another kind.
///
/// `awake`: in a linked world no slot that a leaf can name waits, unless the leaf is blocked. `own`, `leads` and `asks` take this for granted.
pub fn statement_laws()
    ensures starts { (promised : ℕ → Option Kind) (v : Subject) → StartsAsRuled promised v }
    ensures own { (promised : ℕ → Option Kind) (c : Context) (d : Doing) → TakesLeaf d → Grants promised c d → GoesAsRuled promised c d }
    ensures leads { (promised : ℕ → Option Kind) (c : Context) (d : Doing) → TakesLeaf d → Grants promised c d → LeadsAsRuled promised c d }
    ensures others { (d : Doing) → KeepsToItself d }
    ensures stand { (promised : ℕ → Option Kind) (d : Doing) (w : World) → LeavesOthers d w → StandElse promised d w }
    ensures kept { (promised : ℕ → Option Kind) (d : Doing) → TakesLeaf d → IsLinkedWorld d.system d.world → KeepsPromises promised d }
    ensures asks { (promised : ℕ → Option Kind) (c : Context) (d : Doing) → TakesLeaf d → IsLinkedWorld d.system d.world → ReportsLinks promised d.world
        → Grants promised c d → AsksAsRuled promised c d }
    ensures begins { (promised : ℕ → Option Kind) (d : Doing) → TakesLeaf d → BeginsAsRuled promised d }
    ensures ends { (promised : ℕ → Option Kind) (c : Context) (d : Doing) → TakesLeaf d → Grants promised c d → c.subject ≡ subject d.system d.component
        → EndsAsRuled promised c d }
    ensures replies { (promised : ℕ → Option Kind) (c : Context) (d : Doing) → TakesLeaf d → IsLinkedWorld d.system d.world → d.leaf.phase ≡ Handling
        → RepliesAsRuled promised c d }
    ensures resumes { (promised : ℕ → Option Kind) (c : Context) (d : Doing) → TakesLeaf d → IsLinkedWorld d.system d.world → d.leaf.phase ≡ Handling
        → ResumesAsRuled promised c d }
    ensures awake { (d : Doing) → TakesLeaf d → IsLinkedWorld d.system d.world → d.leaf.phase ≢ Blocked → IsAwake d }
{}

//! What the commands come to. A call of one does nothing.

ghost use Rattle.fdpic_cmd.specs.parts.Outcomes.{CommandsComeTo};

/// Each command over told files has an outcome.
pub fn commands_come_to()
    ensures { CommandsComeTo }
{}

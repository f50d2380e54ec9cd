//! What holds where an intent is lawful. The functions do nothing: each is called where its facts are needed.
#![tactic(auto)]

ghost use Rattle.needs_law.specs.Executing.{LawfulExecute};
ghost use Rattle.needs_law.specs.Lawful.{SendsLawfully};

/// Where an intent passes its tests, each of them holds, and what it sends is what it says.
pub fn sends_lawfully()
    ensures { SendsLawfully }
{}

/// Of a command that a lawful intent sends, the facility's condition holds wherever what is left of it does. Never is a frame that is read,
/// written, tested, freed, changed or drawn for none of the member's, nor the slot of a grant none.
pub fn lawful_commands_execute()
    ensures { LawfulExecute }
{}

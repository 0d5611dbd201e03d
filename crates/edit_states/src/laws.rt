ghost use Rattle.std.specs.Prelude.{◌≡◌, ◌≤◌, Ok};
ghost use Rattle.bud_design.specs.declared.policies.Edit.{Edit};
ghost use Rattle.edit_states.specs.Answers.{IsEditAnswer};
ghost use Rattle.edit_states.specs.Edits.{edited};
ghost use Rattle.edit_states.specs.States.{State, HasNumbers};

/// An edit makes one state of a state.
pub fn one_state()
    ensures { (s : State) (e : Edit) (a b : State) → IsEditAnswer s e (Ok a) → IsEditAnswer s e (Ok b) → a ≡ b }
{}

/// Numbers of commands rise and lie below the next number, whatever is added and dropped; so none is used again.
pub fn edits_keep_order()
    ensures numbers { (s : State) (e : Edit) (new : State) → HasNumbers s → edited s e ≡ Ok new → HasNumbers new }
    ensures next { (s : State) (e : Edit) (new : State) → HasNumbers s → edited s e ≡ Ok new → s.next ≤ new.next }
{}

//! The lines of a node's step and the master's moves, each with the protocol moves that it stands
//! for; one law for each, so that a reader finds the one of a line.

ghost use Rattle.std.specs.Prelude.{◌≡◌, ℕ, List, Ok, Some};
ghost use Rattle.craq_commands.specs.declared.command.Update.{Update};
ghost use Rattle.craq_commands.specs.declared.entry.Entry.{Entry};
ghost use Rattle.craq_commands.specs.declared.read_mode.ReadMode.{ReadMode};
ghost use Rattle.craq_commands.specs.declared.state.State.{State};
ghost use Rattle.craq_model.specs.declared.ask.Ask.{Ask};
ghost use Rattle.craq_model.specs.declared.message.Body.{Body};
ghost use Rattle.craq_model.specs.declared.message.LinkMessage.{LinkMessage};
ghost use Rattle.craq_model.specs.declared.message.StatePart.{StatePart};
ghost use Rattle.craq_names.specs.declared.name.ObjectId.{ObjectId};
ghost use Rattle.craq_protocol.specs.Machine.{MachineState};
ghost use Rattle.craq_protocol.specs.Promises.{IsReached};
ghost use Rattle.craq_runs.specs.Chain.{Chain, Progress, chain_step, message_at};
ghost use Rattle.craq_runs.specs.declared.run.Move.{Move};
ghost use Rattle.craq_refinement.specs.Follows.{Follows};
ghost use Rattle.craq_refinement.specs.Lines.{IsAdopting, IsHearing, IsJoining, IsNothing, IsRemoving, IsStopping, IsTaking, IsTakingAll, IsUpdating, StandsFor};

/// States that an entry that arrives is ignored, or taken, and that the node may become ready by
/// it. A tail commits it.
pub fn entry_line()
    ensures { (c : Chain) (w : MachineState Entry) (number : ℕ) (m : LinkMessage) (e : Entry) (x : Progress) → Follows c w
        → message_at c.messages number ≡ Some m → m.body ≡ Body.Entry e → chain_step c (Move.Deliver number) ≡ Ok x
        → StandsFor (IsTaking m.receiver) w x }
{}

/// States that a batch that arrives is ignored, or that its missing entries are taken one after the
/// other, and that the node may become ready by them. A tail commits them.
pub fn batch_line()
    ensures { (c : Chain) (w : MachineState Entry) (number : ℕ) (m : LinkMessage) (entries : List Entry) (x : Progress) → Follows c w
        → message_at c.messages number ≡ Some m → m.body ≡ Body.Batch entries → chain_step c (Move.Deliver number) ≡ Ok x
        → StandsFor (IsTakingAll m.receiver) w x }
{}

/// States that an acknowledgement that arrives is ignored, or that the node then knows its number
/// of entries to be committed.
pub fn ack_line()
    ensures { (c : Chain) (w : MachineState Entry) (number : ℕ) (m : LinkMessage) (position : ℕ) (x : Progress) → Follows c w
        → message_at c.messages number ≡ Some m → m.body ≡ Body.Ack position → chain_step c (Move.Deliver number) ≡ Ok x
        → StandsFor (IsHearing m.receiver) w x }
{}

/// States that a membership that arrives is ignored, or that the node adopts it. A tail commits all
/// that it holds.
pub fn config_line()
    ensures { (c : Chain) (w : MachineState Entry) (number : ℕ) (m : LinkMessage) (members : List ℕ) (x : Progress) → Follows c w
        → message_at c.messages number ≡ Some m → m.body ≡ Body.Config members → chain_step c (Move.Deliver number) ≡ Ok x
        → StandsFor (IsAdopting m.receiver m.epoch) w x }
{}

/// States that a state that arrives is ignored, or stands for the entries before it, and that the
/// node may become ready by it.
pub fn copy_line()
    ensures { (c : Chain) (w : MachineState Entry) (number : ℕ) (m : LinkMessage) (position : ℕ) (state : State) (x : Progress) → Follows c w
        → message_at c.messages number ≡ Some m → m.body ≡ Body.Copy position state → chain_step c (Move.Deliver number) ≡ Ok x
        → StandsFor (IsTaking m.receiver) w x }
{}

/// States that a part of a state that arrives is ignored or kept; or that it is the last missing
/// part, and the state stands for the entries before it. The node may become ready by it.
pub fn part_line()
    ensures { (c : Chain) (w : MachineState Entry) (number : ℕ) (m : LinkMessage) (part : StatePart) (x : Progress) → Follows c w → IsReached w
        → message_at c.messages number ≡ Some m → m.body ≡ Body.Part part → chain_step c (Move.Deliver number) ≡ Ok x
        → StandsFor (IsTaking m.receiver) w x }
{}

/// States that a floor that arrives is ignored, or that the node must hold its number of entries to
/// become ready, and may do so at once.
pub fn floor_line()
    ensures { (c : Chain) (w : MachineState Entry) (number : ℕ) (m : LinkMessage) (count : ℕ) (x : Progress) → Follows c w
        → message_at c.messages number ≡ Some m → m.body ≡ Body.Floor count → chain_step c (Move.Deliver number) ≡ Ok x
        → StandsFor (IsTaking m.receiver) w x }
{}

/// States that a message of an unready successor about its length is ignored, or answered with what
/// the successor lacks.
pub fn blank_line()
    ensures { (c : Chain) (w : MachineState Entry) (number : ℕ) (m : LinkMessage) (count : ℕ) (x : Progress) → Follows c w → IsReached w
        → message_at c.messages number ≡ Some m → m.body ≡ Body.Blank count → chain_step c (Move.Deliver number) ≡ Ok x
        → StandsFor IsNothing w x }
{}

/// States that a query for a version is no move of the protocol.
pub fn query_line()
    ensures { (c : Chain) (w : MachineState Entry) (number : ℕ) (m : LinkMessage) (ticket : ℕ) (key : List ℕ) (x : Progress) → Follows c w
        → message_at c.messages number ≡ Some m → m.body ≡ Body.Query ticket key → chain_step c (Move.Deliver number) ≡ Ok x
        → StandsFor IsNothing w x }
{}

/// States that the reply to a version query is no move of the protocol.
pub fn version_line()
    ensures { (c : Chain) (w : MachineState Entry) (number : ℕ) (m : LinkMessage) (ticket version : ℕ) (x : Progress) → Follows c w
        → message_at c.messages number ≡ Some m → m.body ≡ Body.VersionIs ticket version → chain_step c (Move.Deliver number) ≡ Ok x
        → StandsFor IsNothing w x }
{}

/// States that an update requested at the head has an earlier reply, or that the head appends its
/// entry.
pub fn update_line()
    ensures { (c : Chain) (w : MachineState Entry) (node : ℕ) (update : Update) (x : Progress) → Follows c w → IsReached w
        → chain_step c (Move.Ask node (Ask.Update update)) ≡ Ok x → StandsFor (IsUpdating node) w x }
{}

/// States that a read is no move of the protocol.
pub fn read_line()
    ensures { (c : Chain) (w : MachineState Entry) (node : ℕ) (mode : ReadMode) (object : ObjectId) (x : Progress) → Follows c w
        → chain_step c (Move.Ask node (Ask.Read mode object)) ≡ Ok x → StandsFor IsNothing w x }
{}

/// States that at a tick a node or the master sends its messages again, and that nothing else
/// happens.
pub fn tick_line()
    ensures { (c : Chain) (w : MachineState Entry) (node : ℕ) (x : Progress) → Follows c w
        → chain_step c (Move.Tick node) ≡ Ok x → StandsFor IsNothing w x }
{}

/// States that a stop of a node is the protocol's `Stop`.
pub fn stop_line()
    ensures { (c : Chain) (w : MachineState Entry) (node : ℕ) (x : Progress) → Follows c w
        → chain_step c (Move.Stop node) ≡ Ok x → StandsFor (IsStopping node) w x }
{}

/// States that the removal of a stopped member is the protocol's `Remove`. The master sends the
/// membership to the others.
pub fn removal_line()
    ensures { (c : Chain) (w : MachineState Entry) (node : ℕ) (x : Progress) → Follows c w → IsReached w
        → chain_step c (Move.Remove node) ≡ Ok x → StandsFor (IsRemoving node) w x }
{}

/// States that a join is the protocol's `Join`. The master adds the member at the end, and sends
/// the membership to all.
pub fn join_line()
    ensures { (c : Chain) (w : MachineState Entry) (node : ℕ) (x : Progress) → Follows c w → IsReached w
        → chain_step c (Move.Join node) ≡ Ok x → StandsFor (IsJoining node) w x }
{}

// The amplitude register as a gate register.
ghost use Rattle.std.specs.Prelude.{◌≡◌, ◌+◌, true, is_ok, is_err, if◌then◌else◌, None};
ghost use Rattle.refusal.specs.Refusals.{ok_unless};
ghost use Rattle.circuit.specs.Actions.{is_h};
ghost use Rattle.circuit.specs.Operations.{one_if};
ghost use Rattle.register.specs.Rows.{plain_row};
ghost use Rattle.register.specs.Runs.{capacity, applying_refusal};
ghost use Rattle.amplitude.specs.Models.{amplitude_model, amplitude_blank, act};
ghost use Rattle.amplitude.specs.Held.{state, done, Lent};

use crate::amplitudes::AmplitudeRegister;
use crate::amplitudes::calls::H_MOST;
use circuit::action::{Action, Single};
use refusal::Refusal;
use register::GateRegister;

impl<'a> GateRegister for AmplitudeRegister<'a> {
    ghost model = { amplitude_model plain_row };

    ghost state = { state };

    ghost blank = { amplitude_blank };

    ghost most = { 60 };

    ghost done = { done };

    fn wires(&self) -> u8 {
        self.wires
    }

    fn takes(&self, _kind: Single) -> bool {
        true
    }

    fn h_done(&self) -> u32 {
        self.h_done
    }

    fn h_most(&self) -> u32 {
        H_MOST
    }

    fn apply(&mut self, action: Action) -> Result<(), Refusal>
        ensures answer { result ≡ ok_unless (applying_refusal (capacity (amplitude_model plain_row) 60 (state self.old) (done self.old) None) action) tt }
        ensures kept { is_err result ≡ true → self.new ≡ self.old }
        ensures acted { state self.new ≡ (if is_ok result then act plain_row action (state self.old) else state self.old) }
        ensures counted { done self.new ≡ (if is_ok result then done self.old + one_if (is_h action) else done self.old) }
        ensures lent { Lent self.old self.new }
    {
        self.check(action)?;
        self.act(action);
        Ok(())
    }
}

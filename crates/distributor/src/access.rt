// The guest's reads and writes.
ghost use Rattle.std.specs.Prelude.{◌≡◌, ◌+◌, ◌≤◌, ◌<◌, length};
ghost use Rattle.place.specs.Table.{table_size};
ghost use Rattle.decoding.specs.Bounds.{Bounded, Whole};
ghost use Rattle.answers.specs.Answers.{told_read, told_write};
ghost use Rattle.model.specs.Calls.{read, write, plain, outcome, read_reply, reply, step};
ghost use Rattle.distributor.specs.Model.{model_of};
ghost use Rattle.distributor.specs.Writes.{ResultOfWrite};

use crate::distributor::{After, DistributorState, list_deliverable, read_fields, write_fields};
use answers::answer::unless_beyond;
use bank::bank::lists_unless;
use controller::identity::{IIDR, component_id, ctlr, switch_bit, typer};
use decoding::decode::{decode, write_access};
use decoding::fields::Fields;
use identifiers::error::Refusal;
use registers::register::{AccessWidth, Direction, Register};

impl DistributorState {
    fn read_bank(self, fields: Fields) -> Result<u64, Refusal>
        requires { fields.first < 32 → fields.first + fields.count ≤ 32 }
        ensures { plain (told_read result) ≡ read_reply (model_of self) (Ok (Register.Fields fields.bank fields.first fields.count)) }
    {
        let beyond = fields.read_beyond(self.is_explicit(), self.size());
        unless_beyond(beyond, read_fields(self, fields))
    }

    fn read_register(self, register: Register) -> Result<u64, Refusal>
        requires { Bounded register × Whole register }
        ensures { plain (told_read result) ≡ read_reply (model_of self) (Ok register) }
    {
        match register {
            Register::Identification(k) => Ok(component_id(k)),
            Register::Ctlr => Ok(ctlr(self.enabled)),
            Register::Typer => Ok(typer(self.config, self.spi_count)),
            Register::Iidr => Ok(IIDR),
            Register::Fields(bank, first, count) => self.read_bank(Fields { bank, first, count }),
            Register::Reserved => Ok(0),
        }
    }

    // A guest read. Refusals 3, 4 and 1, in this order.
    pub fn read(self, offset: u64, width: AccessWidth) -> Result<u64, Refusal>
        ensures { plain (told_read result) ≡ reply (read offset width) (model_of self) }
    {
        let register = decode(
            Direction::Reading,
            self.config.distributor_size,
            offset,
            width,
        )?;
        self.read_register(register)
    }

    // Refused or not, the fields inside the table are written.
    fn write_bank(self, fields: Fields, value: u64, list: &mut [u32]) -> After<usize>
        requires { table_size self.spi_count ≤ length list.old }
        ensures { ResultOfWrite self (Ok (Register.Fields fields.bank fields.first fields.count)) value list.old result list.new }
    {
        let beyond = fields.write_beyond(self.is_explicit(), self.size(), value);
        let w = write_fields(self, fields, value, lists_unless(beyond), list);
        After {
            state: w.state,
            answer: unless_beyond(beyond, w.count),
        }
    }

    // Turned on, the switch lists what is deliverable.
    fn write_ctlr(mut self, value: u64, list: &mut [u32]) -> After<usize>
        requires { table_size self.spi_count ≤ length list.old }
        ensures { ResultOfWrite self (Ok Register.Ctlr) value list.old result list.new }
    {
        let on = switch_bit(value);
        self.enabled = on;
        if on {
            let count = list_deliverable(self, list);
            return self.keeping(Ok(count));
        }
        self.keeping(Ok(0))
    }

    // This state, and an answer.
    fn keeping(self, answer: Result<usize, Refusal>) -> After<usize>
        ensures { (result.state ≡ self) × (result.answer ≡ answer) }
    {
        After {
            state: self,
            answer,
        }
    }

    fn write_register(self, register: Register, value: u64, list: &mut [u32]) -> After<usize>
        requires { Bounded register × (table_size self.spi_count ≤ length list.old) }
        ensures { ResultOfWrite self (Ok register) value list.old result list.new }
    {
        match register {
            Register::Ctlr => self.write_ctlr(value, list),
            Register::Fields(bank, first, count) => self.write_bank(
                Fields { bank, first, count },
                value,
                list,
            ),
            // Nothing else takes a write.
            Register::Identification(_) | Register::Typer | Register::Iidr | Register::Reserved => {
                self.keeping(Ok(0))
            }
        }
    }

    // A guest write. Refusals 5, 3, 4 and 1, in this order. Refused 1, it has done its work inside the table and listed nothing: the
    // host has to look for deliverable SPIs himself.
    pub fn write(
        self,
        offset: u64,
        width: AccessWidth,
        value: u64,
        list: &mut [u32],
    ) -> After<usize>
        ensures state { model_of result.state ≡ step (write offset width value (length list.old)) (model_of self) }
        ensures answer { record { answer = told_write result.answer; list = list.new } ≡ outcome (reply (write offset width value (length list.old)) (model_of self)) list.old }
    {
        let frame = self.config.distributor_size;
        match write_access(list.len(), self.size(), frame, offset, width) {
            Ok(register) => self.write_register(register, value, list),
            Err(refusal) => self.keeping(Err(refusal)),
        }
    }
}

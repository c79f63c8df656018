// Where a call passes an argument or a result (System V psABI for x86-64, section 3.2.3 "Parameter Passing").
ghost use Rattle.std.specs.Prelude.{◌≡◌, IfErr, IfOk};
ghost use Rattle.abi_base.specs.declared.fault.NoMemory.TheVariants.{Allocation};
ghost use Rattle.abi_types.specs.Forms.{no_call};

use abi_base::{List, NoMemory};
use std::alloc::Global;
use std::marker::Model;

/// The register of an eightbyte of an argument or a result. General registers are numbered in the order rdi, rsi, rdx, rcx, r8,
/// r9, rax; vector registers from xmm0 on; x87 registers from st0 on.
#[derive(Clone, Copy, Debug, PartialEq, Eq)]
pub enum Slot {
    /// No register.
    Unused,
    /// A general register.
    General(u8),
    /// The lowest eightbyte of a vector register.
    Vector(u8),
    /// The next higher eightbyte of a vector register.
    Upper(u8),
    /// An x87 register.
    X87(u8),
}

/// Where an argument or a result is passed.
#[derive(Clone, Copy, Debug, PartialEq, Eq)]
pub enum Place {
    /// Nowhere: it has no bytes.
    Nothing,
    /// In registers, eightbyte by eightbyte.
    Registers { eightbytes: [Slot; 8] },
    /// On the stack: `size` bytes at this offset in the area of the stack arguments.
    Stack { offset: u64, size: u64 },
    /// In memory whose address the caller passes.
    Hidden,
}

/// Where the result and the arguments of a function are passed.
#[derive(Drop)]
pub struct CallShape {
    /// The place of the result.
    pub outcome: Place,
    /// The places of the parameters, in order.
    pub params: List<Place>,
}

/// Where the result and the arguments of a function are passed, in an allocation of its own. A type that is not a function has
/// no places and needs no memory. Contracts see the shape, or that of no places.
// Few types of a library are functions, and each type has this field. An inline shape would triple its size.
#[derive(Drop)]
pub struct Call {
    shape: Option<Box<CallShape>>,
}

impl Model for Call {
    ghost use Rattle.abi_types.specs.declared.place.CallShape.{CallShape};

    ghost Value = { CallShape };

    ghost use Rattle.std.specs.Option.{option_map, unwrap_or};
    ghost use Rattle.abi_types.specs.Forms.{no_call};

    ghost view = { λ call. unwrap_or (option_map (λ kept. kept.value) call.shape) no_call };
}

impl Call {
    /// No places. Allocates nothing.
    pub fn none() -> Call
        ensures { result ≡ no_call }
    {
        Call { shape: None }
    }

    /// The places of a shape.
    pub fn of(alloc: Global, shape: CallShape) -> Result<Call, NoMemory>
        ensures call { IfOk result (λ call. call ≡ shape) }
        ensures named { IfErr result (λ e. e ≡ Allocation) }
    {
        Ok(Call {
            shape: Some(Box::new(alloc, shape)?),
        })
    }

    /// The place of the result.
    pub fn outcome(&self) -> Place
        ensures { result ≡ self.now.outcome }
    {
        match &self.shape {
            Some(shape) => shape.outcome,
            None => Place::Nothing,
        }
    }

    /// The places of the parameters, in order.
    pub fn params(&self) -> &[Place]
        ensures { result.now ≡ self.now.params }
    {
        match &self.shape {
            Some(shape) => shape.params.as_slice(),
            None => &[],
        }
    }

    /// A copy of the places.
    pub fn copy(&self, alloc: Global) -> Result<Call, NoMemory>
        ensures copy { IfOk result (λ copy. copy ≡ self.now) }
        ensures named { IfErr result (λ e. e ≡ Allocation) }
    {
        match &self.shape {
            Some(shape) => {
                let outcome = shape.outcome;
                let params = List::copy_of(alloc, shape.params.as_slice())?;
                Call::of(alloc, CallShape { outcome, params })
            }
            None => Ok(Call::none()),
        }
    }
}

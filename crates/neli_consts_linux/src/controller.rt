//! The controller of generic netlink, with policies.

ghost use Rattle.std.proofs.Common.{rules};
ghost use Rattle.std.specs.Prelude.{◌≡◌};
ghost use Rattle.neli_consts_linux.specs.CtrlCmd.{ctrl_cmd_number, ctrl_cmd_of, ctrl_cmd_is_unrecognized};
ghost use Rattle.neli_consts_linux.specs.CtrlAttr.{ctrl_attr_number, ctrl_attr_of, ctrl_attr_is_unrecognized};
ghost use Rattle.neli_consts_linux.specs.CtrlAttrOp.{ctrl_attr_op_number, ctrl_attr_op_of};
ghost use Rattle.neli_consts_linux.specs.CtrlAttrOp.{ctrl_attr_op_is_unrecognized};
ghost use Rattle.neli_consts_linux.specs.CtrlAttrPolicy.{ctrl_attr_policy_number, ctrl_attr_policy_of};
ghost use Rattle.neli_consts_linux.specs.CtrlAttrPolicy.{ctrl_attr_policy_is_unrecognized};
ghost use Rattle.neli_wire.specs.laws.Constants.{first_with-number};

use neli_consts::{Cmd, NlAttrType};
use neli_wire::Constant;

/// Commands of the controller of generic netlink, [`neli_consts::CtrlCmd`] with the one for
/// policies: `CTRL_CMD_*` of `linux/genetlink.h`. The kernel announces with `New..` and `Del..`,
/// and answers `Get..` with `New..`.
#[derive(Clone, Copy, Debug, PartialEq, Eq)]
pub enum CtrlCmd {
    /// No command: 0 stands for none.
    Unspec,
    /// Reports a family.
    Newfamily,
    /// Reports that a family is gone.
    Delfamily,
    /// Asks for families.
    Getfamily,
    /// Reports a family's commands.
    Newops,
    /// Reports that commands of a family are gone.
    Delops,
    /// Asks for a family's commands.
    Getops,
    /// Reports a multicast group of a family.
    NewmcastGrp,
    /// Reports that a multicast group of a family is gone.
    DelmcastGrp,
    /// Not used by the kernel.
    GetmcastGrp,
    /// Asks which attributes a family takes, and reports them.
    Getpolicy,
    /// A number without a name.
    UnrecognizedConst(u8),
}

impl CtrlCmd {
    /// Whether the value is a number without a name, an `UnrecognizedConst`.
    pub fn is_unrecognized(&self) -> bool
        ensures { result ≡ ctrl_cmd_is_unrecognized self.now }
    {
        matches!(self, CtrlCmd::UnrecognizedConst(_))
    }
}

impl From<u8> for CtrlCmd {
    ghost from_gives = { λ number value. value ≡ ctrl_cmd_of number };

    fn from(number: u8) -> CtrlCmd {
        match number {
            0 => CtrlCmd::Unspec,
            1 => CtrlCmd::Newfamily,
            2 => CtrlCmd::Delfamily,
            3 => CtrlCmd::Getfamily,
            4 => CtrlCmd::Newops,
            5 => CtrlCmd::Delops,
            6 => CtrlCmd::Getops,
            7 => CtrlCmd::NewmcastGrp,
            8 => CtrlCmd::DelmcastGrp,
            9 => CtrlCmd::GetmcastGrp,
            10 => CtrlCmd::Getpolicy,
            _ => CtrlCmd::UnrecognizedConst(number),
        }
    }
}

impl From<CtrlCmd> for u8 {
    ghost from_gives = { λ value number. number ≡ ctrl_cmd_number value };

    fn from(value: CtrlCmd) -> u8 {
        match value {
            CtrlCmd::Unspec => 0,
            CtrlCmd::Newfamily => 1,
            CtrlCmd::Delfamily => 2,
            CtrlCmd::Getfamily => 3,
            CtrlCmd::Newops => 4,
            CtrlCmd::Delops => 5,
            CtrlCmd::Getops => 6,
            CtrlCmd::NewmcastGrp => 7,
            CtrlCmd::DelmcastGrp => 8,
            CtrlCmd::GetmcastGrp => 9,
            CtrlCmd::Getpolicy => 10,
            CtrlCmd::UnrecognizedConst(number) => number,
        }
    }
}

impl Constant for CtrlCmd {
    type Number = u8;

    ghost wire_number = { ctrl_cmd_number };

    ghost wire_value = { ctrl_cmd_of };

    fn from_wire(number: u8) -> CtrlCmd {
        CtrlCmd::from(number)
    }

    fn to_wire(&self) -> u8 {
        u8::from(*self)
    }

    ghost back_to_number = { λ n _. Prim.search (first_with-number, rules) };
}

impl Cmd for CtrlCmd {}

/// Attributes of a family of generic netlink, [`neli_consts::CtrlAttr`] with those of policies:
/// `CTRL_ATTR_*` of `linux/genetlink.h`.
#[derive(Clone, Copy, Debug, PartialEq, Eq)]
pub enum CtrlAttr {
    /// No attribute: 0 stands for none.
    Unspec,
    /// The family's number, which is the type of its messages.
    FamilyId,
    /// Its name, with a zero at its end.
    FamilyName,
    /// Its version.
    Version,
    /// The length of its header behind the generic one, in bytes.
    Hdrsize,
    /// The highest number of its attributes.
    Maxattr,
    /// Its commands, numbered attributes of [`CtrlAttrOp`].
    Ops,
    /// Its multicast groups, numbered attributes of [`neli_consts::CtrlAttrMcastGrp`].
    McastGroups,
    /// Policies by their number, and inside by attribute, attributes of
    /// [`NlPolicyTypeAttr`](crate::NlPolicyTypeAttr).
    Policy,
    /// The policies of commands, by command, attributes of [`CtrlAttrPolicy`].
    OpPolicy,
    /// The command whose policy is requested.
    Op,
    /// A number without a name.
    UnrecognizedConst(u16),
}

impl CtrlAttr {
    /// Whether the value is a number without a name, an `UnrecognizedConst`.
    pub fn is_unrecognized(&self) -> bool
        ensures { result ≡ ctrl_attr_is_unrecognized self.now }
    {
        matches!(self, CtrlAttr::UnrecognizedConst(_))
    }
}

impl From<u16> for CtrlAttr {
    ghost from_gives = { λ number value. value ≡ ctrl_attr_of number };

    fn from(number: u16) -> CtrlAttr {
        match number {
            0 => CtrlAttr::Unspec,
            1 => CtrlAttr::FamilyId,
            2 => CtrlAttr::FamilyName,
            3 => CtrlAttr::Version,
            4 => CtrlAttr::Hdrsize,
            5 => CtrlAttr::Maxattr,
            6 => CtrlAttr::Ops,
            7 => CtrlAttr::McastGroups,
            8 => CtrlAttr::Policy,
            9 => CtrlAttr::OpPolicy,
            10 => CtrlAttr::Op,
            _ => CtrlAttr::UnrecognizedConst(number),
        }
    }
}

impl From<CtrlAttr> for u16 {
    ghost from_gives = { λ value number. number ≡ ctrl_attr_number value };

    fn from(value: CtrlAttr) -> u16 {
        match value {
            CtrlAttr::Unspec => 0,
            CtrlAttr::FamilyId => 1,
            CtrlAttr::FamilyName => 2,
            CtrlAttr::Version => 3,
            CtrlAttr::Hdrsize => 4,
            CtrlAttr::Maxattr => 5,
            CtrlAttr::Ops => 6,
            CtrlAttr::McastGroups => 7,
            CtrlAttr::Policy => 8,
            CtrlAttr::OpPolicy => 9,
            CtrlAttr::Op => 10,
            CtrlAttr::UnrecognizedConst(number) => number,
        }
    }
}

impl Constant for CtrlAttr {
    type Number = u16;

    ghost wire_number = { ctrl_attr_number };

    ghost wire_value = { ctrl_attr_of };

    fn from_wire(number: u16) -> CtrlAttr {
        CtrlAttr::from(number)
    }

    fn to_wire(&self) -> u16 {
        u16::from(*self)
    }

    ghost back_to_number = { λ n _. Prim.search (first_with-number, rules) };
}

impl NlAttrType for CtrlAttr {}

/// Attributes of a command, inside those of [`CtrlAttr::Ops`]: `CTRL_ATTR_OP_*` of
/// `linux/genetlink.h`.
#[derive(Clone, Copy, Debug, PartialEq, Eq)]
pub enum CtrlAttrOp {
    /// No attribute: 0 stands for none.
    Unspec,
    /// The command's number.
    Id,
    /// What the command needs and can do, a bit for each.
    Flags,
    /// A number without a name.
    UnrecognizedConst(u16),
}

impl CtrlAttrOp {
    /// Whether the value is a number without a name, an `UnrecognizedConst`.
    pub fn is_unrecognized(&self) -> bool
        ensures { result ≡ ctrl_attr_op_is_unrecognized self.now }
    {
        matches!(self, CtrlAttrOp::UnrecognizedConst(_))
    }
}

impl From<u16> for CtrlAttrOp {
    ghost from_gives = { λ number value. value ≡ ctrl_attr_op_of number };

    fn from(number: u16) -> CtrlAttrOp {
        match number {
            0 => CtrlAttrOp::Unspec,
            1 => CtrlAttrOp::Id,
            2 => CtrlAttrOp::Flags,
            _ => CtrlAttrOp::UnrecognizedConst(number),
        }
    }
}

impl From<CtrlAttrOp> for u16 {
    ghost from_gives = { λ value number. number ≡ ctrl_attr_op_number value };

    fn from(value: CtrlAttrOp) -> u16 {
        match value {
            CtrlAttrOp::Unspec => 0,
            CtrlAttrOp::Id => 1,
            CtrlAttrOp::Flags => 2,
            CtrlAttrOp::UnrecognizedConst(number) => number,
        }
    }
}

impl Constant for CtrlAttrOp {
    type Number = u16;

    ghost wire_number = { ctrl_attr_op_number };

    ghost wire_value = { ctrl_attr_op_of };

    fn from_wire(number: u16) -> CtrlAttrOp {
        CtrlAttrOp::from(number)
    }

    fn to_wire(&self) -> u16 {
        u16::from(*self)
    }

    ghost back_to_number = { λ n _. Prim.search (first_with-number, rules) };
}

impl NlAttrType for CtrlAttrOp {}

/// Attributes of a command's policies, inside those of [`CtrlAttr::OpPolicy`]: `CTRL_ATTR_POLICY_*`
/// of `linux/genetlink.h`.
#[derive(Clone, Copy, Debug, PartialEq, Eq)]
pub enum CtrlAttrPolicy {
    /// No attribute: 0 stands for none.
    Unspec,
    /// The number of the policy for a request.
    Do,
    /// The number of the policy for a dump request.
    Dump,
    /// A number without a name.
    UnrecognizedConst(u16),
}

impl CtrlAttrPolicy {
    /// Whether the value is a number without a name, an `UnrecognizedConst`.
    pub fn is_unrecognized(&self) -> bool
        ensures { result ≡ ctrl_attr_policy_is_unrecognized self.now }
    {
        matches!(self, CtrlAttrPolicy::UnrecognizedConst(_))
    }
}

impl From<u16> for CtrlAttrPolicy {
    ghost from_gives = { λ number value. value ≡ ctrl_attr_policy_of number };

    fn from(number: u16) -> CtrlAttrPolicy {
        match number {
            0 => CtrlAttrPolicy::Unspec,
            1 => CtrlAttrPolicy::Do,
            2 => CtrlAttrPolicy::Dump,
            _ => CtrlAttrPolicy::UnrecognizedConst(number),
        }
    }
}

impl From<CtrlAttrPolicy> for u16 {
    ghost from_gives = { λ value number. number ≡ ctrl_attr_policy_number value };

    fn from(value: CtrlAttrPolicy) -> u16 {
        match value {
            CtrlAttrPolicy::Unspec => 0,
            CtrlAttrPolicy::Do => 1,
            CtrlAttrPolicy::Dump => 2,
            CtrlAttrPolicy::UnrecognizedConst(number) => number,
        }
    }
}

impl Constant for CtrlAttrPolicy {
    type Number = u16;

    ghost wire_number = { ctrl_attr_policy_number };

    ghost wire_value = { ctrl_attr_policy_of };

    fn from_wire(number: u16) -> CtrlAttrPolicy {
        CtrlAttrPolicy::from(number)
    }

    fn to_wire(&self) -> u16 {
        u16::from(*self)
    }

    ghost back_to_number = { λ n _. Prim.search (first_with-number, rules) };
}

impl NlAttrType for CtrlAttrPolicy {}

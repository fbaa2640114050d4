//! Numbers of generic netlink and its controller.

ghost use Rattle.std.proofs.Common.{rules};
ghost use Rattle.std.specs.Prelude.{◌≡◌};
ghost use Rattle.neli_consts.specs.GenlId.{genl_id_number, genl_id_of, genl_id_is_unrecognized};
ghost use Rattle.neli_consts.specs.CtrlCmd.{ctrl_cmd_number, ctrl_cmd_of, ctrl_cmd_is_unrecognized};
ghost use Rattle.neli_consts.specs.CtrlAttr.{ctrl_attr_number, ctrl_attr_of, ctrl_attr_is_unrecognized};
ghost use Rattle.neli_consts.specs.CtrlAttrMcastGrp.{ctrl_attr_mcast_grp_number, ctrl_attr_mcast_grp_of};
ghost use Rattle.neli_consts.specs.CtrlAttrMcastGrp.{ctrl_attr_mcast_grp_is_unrecognized};
ghost use Rattle.neli_wire.specs.laws.Constants.{first_with-number};

use neli_wire::Constant;

/// Types of generic netlink messages that are fixed: `GENL_ID_*` of `linux/genetlink.h`. The kernel
/// numbers every other family when it is loaded.
#[derive(Clone, Copy, Debug, PartialEq, Eq)]
pub enum GenlId {
    /// The controller, which knows the number of each family.
    Ctrl,
    /// Warnings of disk quotas.
    VfsDquot,
    /// Events of a storage controller.
    Pmcraid,
    /// A number without a name.
    UnrecognizedConst(u16),
}

impl GenlId {
    /// Whether the value is a number without a name, an `UnrecognizedConst`.
    pub fn is_unrecognized(&self) -> bool
        ensures { result ≡ genl_id_is_unrecognized self.now }
    {
        matches!(self, GenlId::UnrecognizedConst(_))
    }
}

impl From<u16> for GenlId {
    ghost from_gives = { λ number value. value ≡ genl_id_of number };

    fn from(number: u16) -> GenlId {
        match number {
            16 => GenlId::Ctrl,
            17 => GenlId::VfsDquot,
            18 => GenlId::Pmcraid,
            _ => GenlId::UnrecognizedConst(number),
        }
    }
}

impl From<GenlId> for u16 {
    ghost from_gives = { λ value number. number ≡ genl_id_number value };

    fn from(value: GenlId) -> u16 {
        match value {
            GenlId::Ctrl => 16,
            GenlId::VfsDquot => 17,
            GenlId::Pmcraid => 18,
            GenlId::UnrecognizedConst(number) => number,
        }
    }
}

impl From<&GenlId> for u16 {
    ghost from_gives = { λ value number. number ≡ genl_id_number value.now };

    fn from(value: &GenlId) -> u16 {
        u16::from(*value)
    }
}

impl Constant for GenlId {
    type Number = u16;

    ghost wire_number = { genl_id_number };

    ghost wire_value = { genl_id_of };

    fn from_wire(number: u16) -> GenlId {
        GenlId::from(number)
    }

    fn to_wire(&self) -> u16 {
        u16::from(self)
    }

    ghost back_to_number = { λ n _. Prim.search (first_with-number, rules) };
}

/// Commands of the controller of generic netlink: `CTRL_CMD_*` of `linux/genetlink.h`. The kernel
/// announces with `New..` and `Del..`, and answers `Get..` with `New..`.
#[derive(Clone, Copy, Debug, PartialEq, Eq)]
pub enum CtrlCmd {
    /// No command: 0 stands for none.
    Unspec,
    /// Reports a family.
    Newfamily,
    /// Reports that a family is gone.
    Delfamily,
    /// Asks for families.
    Getfamily,
    /// Reports a family's commands.
    Newops,
    /// Reports that commands of a family are gone.
    Delops,
    /// Asks for a family's commands.
    Getops,
    /// Reports a multicast group of a family.
    NewmcastGrp,
    /// Reports that a multicast group of a family is gone.
    DelmcastGrp,
    /// Not used by the kernel.
    GetmcastGrp,
    /// A number without a name.
    UnrecognizedConst(u8),
}

impl CtrlCmd {
    /// Whether the value is a number without a name, an `UnrecognizedConst`.
    pub fn is_unrecognized(&self) -> bool
        ensures { result ≡ ctrl_cmd_is_unrecognized self.now }
    {
        matches!(self, CtrlCmd::UnrecognizedConst(_))
    }
}

impl From<u8> for CtrlCmd {
    ghost from_gives = { λ number value. value ≡ ctrl_cmd_of number };

    fn from(number: u8) -> CtrlCmd {
        match number {
            0 => CtrlCmd::Unspec,
            1 => CtrlCmd::Newfamily,
            2 => CtrlCmd::Delfamily,
            3 => CtrlCmd::Getfamily,
            4 => CtrlCmd::Newops,
            5 => CtrlCmd::Delops,
            6 => CtrlCmd::Getops,
            7 => CtrlCmd::NewmcastGrp,
            8 => CtrlCmd::DelmcastGrp,
            9 => CtrlCmd::GetmcastGrp,
            _ => CtrlCmd::UnrecognizedConst(number),
        }
    }
}

impl From<CtrlCmd> for u8 {
    ghost from_gives = { λ value number. number ≡ ctrl_cmd_number value };

    fn from(value: CtrlCmd) -> u8 {
        match value {
            CtrlCmd::Unspec => 0,
            CtrlCmd::Newfamily => 1,
            CtrlCmd::Delfamily => 2,
            CtrlCmd::Getfamily => 3,
            CtrlCmd::Newops => 4,
            CtrlCmd::Delops => 5,
            CtrlCmd::Getops => 6,
            CtrlCmd::NewmcastGrp => 7,
            CtrlCmd::DelmcastGrp => 8,
            CtrlCmd::GetmcastGrp => 9,
            CtrlCmd::UnrecognizedConst(number) => number,
        }
    }
}

impl From<&CtrlCmd> for u8 {
    ghost from_gives = { λ value number. number ≡ ctrl_cmd_number value.now };

    fn from(value: &CtrlCmd) -> u8 {
        u8::from(*value)
    }
}

impl Constant for CtrlCmd {
    type Number = u8;

    ghost wire_number = { ctrl_cmd_number };

    ghost wire_value = { ctrl_cmd_of };

    fn from_wire(number: u8) -> CtrlCmd {
        CtrlCmd::from(number)
    }

    fn to_wire(&self) -> u8 {
        u8::from(self)
    }

    ghost back_to_number = { λ n _. Prim.search (first_with-number, rules) };
}

/// Attributes of a family of generic netlink: `CTRL_ATTR_*` of `linux/genetlink.h`.
#[derive(Clone, Copy, Debug, PartialEq, Eq)]
pub enum CtrlAttr {
    /// No attribute: 0 stands for none.
    Unspec,
    /// The type of the family's messages, in two bytes.
    FamilyId,
    /// The family's name, with a zero at its end.
    FamilyName,
    /// The version of the family.
    Version,
    /// The size of the family's own header, in bytes.
    Hdrsize,
    /// The greatest number of its attributes.
    Maxattr,
    /// Its commands.
    Ops,
    /// Its multicast groups: a list of lists of [`CtrlAttrMcastGrp`].
    McastGroups,
    /// A number without a name.
    UnrecognizedConst(u16),
}

impl CtrlAttr {
    /// Whether the value is a number without a name, an `UnrecognizedConst`.
    pub fn is_unrecognized(&self) -> bool
        ensures { result ≡ ctrl_attr_is_unrecognized self.now }
    {
        matches!(self, CtrlAttr::UnrecognizedConst(_))
    }
}

impl From<u16> for CtrlAttr {
    ghost from_gives = { λ number value. value ≡ ctrl_attr_of number };

    fn from(number: u16) -> CtrlAttr {
        match number {
            0 => CtrlAttr::Unspec,
            1 => CtrlAttr::FamilyId,
            2 => CtrlAttr::FamilyName,
            3 => CtrlAttr::Version,
            4 => CtrlAttr::Hdrsize,
            5 => CtrlAttr::Maxattr,
            6 => CtrlAttr::Ops,
            7 => CtrlAttr::McastGroups,
            _ => CtrlAttr::UnrecognizedConst(number),
        }
    }
}

impl From<CtrlAttr> for u16 {
    ghost from_gives = { λ value number. number ≡ ctrl_attr_number value };

    fn from(value: CtrlAttr) -> u16 {
        match value {
            CtrlAttr::Unspec => 0,
            CtrlAttr::FamilyId => 1,
            CtrlAttr::FamilyName => 2,
            CtrlAttr::Version => 3,
            CtrlAttr::Hdrsize => 4,
            CtrlAttr::Maxattr => 5,
            CtrlAttr::Ops => 6,
            CtrlAttr::McastGroups => 7,
            CtrlAttr::UnrecognizedConst(number) => number,
        }
    }
}

impl From<&CtrlAttr> for u16 {
    ghost from_gives = { λ value number. number ≡ ctrl_attr_number value.now };

    fn from(value: &CtrlAttr) -> u16 {
        u16::from(*value)
    }
}

impl Constant for CtrlAttr {
    type Number = u16;

    ghost wire_number = { ctrl_attr_number };

    ghost wire_value = { ctrl_attr_of };

    fn from_wire(number: u16) -> CtrlAttr {
        CtrlAttr::from(number)
    }

    fn to_wire(&self) -> u16 {
        u16::from(self)
    }

    ghost back_to_number = { λ n _. Prim.search (first_with-number, rules) };
}

/// Attributes of a multicast group, inside [`CtrlAttr::McastGroups`]: `CTRL_ATTR_MCAST_GRP_*` of
/// `linux/genetlink.h`.
#[derive(Clone, Copy, Debug, PartialEq, Eq)]
pub enum CtrlAttrMcastGrp {
    /// No attribute: 0 stands for none.
    Unspec,
    /// The group's name, with a zero at its end.
    Name,
    /// The group's number, in four bytes.
    Id,
    /// A number without a name.
    UnrecognizedConst(u16),
}

impl CtrlAttrMcastGrp {
    /// Whether the value is a number without a name, an `UnrecognizedConst`.
    pub fn is_unrecognized(&self) -> bool
        ensures { result ≡ ctrl_attr_mcast_grp_is_unrecognized self.now }
    {
        matches!(self, CtrlAttrMcastGrp::UnrecognizedConst(_))
    }
}

impl From<u16> for CtrlAttrMcastGrp {
    ghost from_gives = { λ number value. value ≡ ctrl_attr_mcast_grp_of number };

    fn from(number: u16) -> CtrlAttrMcastGrp {
        match number {
            0 => CtrlAttrMcastGrp::Unspec,
            1 => CtrlAttrMcastGrp::Name,
            2 => CtrlAttrMcastGrp::Id,
            _ => CtrlAttrMcastGrp::UnrecognizedConst(number),
        }
    }
}

impl From<CtrlAttrMcastGrp> for u16 {
    ghost from_gives = { λ value number. number ≡ ctrl_attr_mcast_grp_number value };

    fn from(value: CtrlAttrMcastGrp) -> u16 {
        match value {
            CtrlAttrMcastGrp::Unspec => 0,
            CtrlAttrMcastGrp::Name => 1,
            CtrlAttrMcastGrp::Id => 2,
            CtrlAttrMcastGrp::UnrecognizedConst(number) => number,
        }
    }
}

impl From<&CtrlAttrMcastGrp> for u16 {
    ghost from_gives = { λ value number. number ≡ ctrl_attr_mcast_grp_number value.now };

    fn from(value: &CtrlAttrMcastGrp) -> u16 {
        u16::from(*value)
    }
}

impl Constant for CtrlAttrMcastGrp {
    type Number = u16;

    ghost wire_number = { ctrl_attr_mcast_grp_number };

    ghost wire_value = { ctrl_attr_mcast_grp_of };

    fn from_wire(number: u16) -> CtrlAttrMcastGrp {
        CtrlAttrMcastGrp::from(number)
    }

    fn to_wire(&self) -> u16 {
        u16::from(self)
    }

    ghost back_to_number = { λ n _. Prim.search (first_with-number, rules) };
}

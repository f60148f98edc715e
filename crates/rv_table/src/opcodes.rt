ghost use Rattle.std.specs.Prelude.{◌≡◌, Some};
ghost use Rattle.rv_fields.specs.declared.row_table.Ins.{Ins};
ghost use Rattle.rv_fields.specs.RowTable.{Agrees};
ghost use Rattle.rv_table.specs.Key.{key_of, ins_with};

use rv_fields::{Ins, bits_of};

// The opcodes, by their names in the manual.
const LOAD: u32 = 0x03;

const MISC_MEM: u32 = 0x0f;

const OP_IMM: u32 = 0x13;

const AUIPC: u32 = 0x17;

const OP_IMM_32: u32 = 0x1b;

const STORE: u32 = 0x23;

const AMO: u32 = 0x2f;

const OP: u32 = 0x33;

const LUI: u32 = 0x37;

const OP_32: u32 = 0x3b;

const BRANCH: u32 = 0x63;

const JALR: u32 = 0x67;

const JAL: u32 = 0x6f;

const SYSTEM: u32 = 0x73;

/// The only instruction whose row the word can agree with; where it doesn't, the word is of no row.
pub fn candidate(word: u32) -> Option<Ins>
    ensures { (i : Ins) → Agrees word i → result ≡ Some i }
{
    Key::of(word).ins()
}

/// The fields of a word that tell its instruction from others. Those that its instruction lacks may have any value.
#[derive(Clone, Copy)]
struct Key {
    opcode: u32,
    /// Bits 14 to 12.
    funct3: u32,
    /// Bits 31 to 27: the operation of an atomic instruction, or of a shift by a constant.
    funct5: u32,
    /// Bits 31 to 25: the operation on two registers.
    funct7: u32,
    /// Bits 31 to 20: the privileged instruction.
    funct12: u32,
}

impl Key {
    fn of(word: u32) -> Key
        ensures { result ≡ key_of word }
    {
        Key {
            opcode: bits_of(word, 0, 7),
            funct3: bits_of(word, 12, 3),
            funct5: bits_of(word, 27, 5),
            funct7: bits_of(word, 25, 7),
            funct12: bits_of(word, 20, 12),
        }
    }

    /// The instruction whose row has the key.
    fn ins(self) -> Option<Ins>
        ensures { result ≡ ins_with self }
    {
        match self.opcode {
            LOAD => self.load(),
            MISC_MEM if self.funct3 == 0 => Some(Ins::Fence),
            OP_IMM => self.op_imm(),
            AUIPC => Some(Ins::Auipc),
            OP_IMM_32 => self.op_imm_32(),
            STORE => self.store(),
            AMO => self.amo(),
            OP => self.op(),
            LUI => Some(Ins::Lui),
            OP_32 => self.op_32(),
            BRANCH => self.branch(),
            JALR if self.funct3 == 0 => Some(Ins::Jalr),
            JAL => Some(Ins::Jal),
            SYSTEM => self.system(),
            _ => None,
        }
    }

    fn load(self) -> Option<Ins>
        ensures { result ≡ ins_with (record self { opcode = LOAD }) }
    {
        match self.funct3 {
            0 => Some(Ins::Lb),
            1 => Some(Ins::Lh),
            2 => Some(Ins::Lw),
            3 => Some(Ins::Ld),
            4 => Some(Ins::Lbu),
            5 => Some(Ins::Lhu),
            6 => Some(Ins::Lwu),
            _ => None,
        }
    }

    fn op_imm(self) -> Option<Ins>
        ensures { result ≡ ins_with (record self { opcode = OP_IMM }) }
    {
        match (self.funct3, self.funct5) {
            (0, _) => Some(Ins::Addi),
            (1, 0x00) => Some(Ins::Slli),
            (2, _) => Some(Ins::Slti),
            (3, _) => Some(Ins::Sltiu),
            (4, _) => Some(Ins::Xori),
            (5, 0x00) => Some(Ins::Srli),
            (5, 0x08) => Some(Ins::Srai),
            (6, _) => Some(Ins::Ori),
            (7, _) => Some(Ins::Andi),
            _ => None,
        }
    }

    fn op_imm_32(self) -> Option<Ins>
        ensures { result ≡ ins_with (record self { opcode = OP_IMM_32 }) }
    {
        match (self.funct3, self.funct7) {
            (0, _) => Some(Ins::Addiw),
            (1, 0x00) => Some(Ins::Slliw),
            (5, 0x00) => Some(Ins::Srliw),
            (5, 0x20) => Some(Ins::Sraiw),
            _ => None,
        }
    }

    fn store(self) -> Option<Ins>
        ensures { result ≡ ins_with (record self { opcode = STORE }) }
    {
        match self.funct3 {
            0 => Some(Ins::Sb),
            1 => Some(Ins::Sh),
            2 => Some(Ins::Sw),
            3 => Some(Ins::Sd),
            _ => None,
        }
    }

    fn amo(self) -> Option<Ins>
        ensures { result ≡ ins_with (record self { opcode = AMO }) }
    {
        match (self.funct3, self.funct5) {
            (2, 0x00) => Some(Ins::AmoaddW),
            (2, 0x01) => Some(Ins::AmoswapW),
            (2, 0x02) => Some(Ins::LrW),
            (2, 0x03) => Some(Ins::ScW),
            (2, 0x04) => Some(Ins::AmoxorW),
            (2, 0x08) => Some(Ins::AmoorW),
            (2, 0x0c) => Some(Ins::AmoandW),
            (2, 0x10) => Some(Ins::AmominW),
            (2, 0x14) => Some(Ins::AmomaxW),
            (2, 0x18) => Some(Ins::AmominuW),
            (2, 0x1c) => Some(Ins::AmomaxuW),
            (3, 0x00) => Some(Ins::AmoaddD),
            (3, 0x01) => Some(Ins::AmoswapD),
            (3, 0x02) => Some(Ins::LrD),
            (3, 0x03) => Some(Ins::ScD),
            (3, 0x04) => Some(Ins::AmoxorD),
            (3, 0x08) => Some(Ins::AmoorD),
            (3, 0x0c) => Some(Ins::AmoandD),
            (3, 0x10) => Some(Ins::AmominD),
            (3, 0x14) => Some(Ins::AmomaxD),
            (3, 0x18) => Some(Ins::AmominuD),
            (3, 0x1c) => Some(Ins::AmomaxuD),
            _ => None,
        }
    }

    fn op(self) -> Option<Ins>
        ensures { result ≡ ins_with (record self { opcode = OP }) }
    {
        match (self.funct7, self.funct3) {
            (0x00, 0) => Some(Ins::Add),
            (0x00, 1) => Some(Ins::Sll),
            (0x00, 2) => Some(Ins::Slt),
            (0x00, 3) => Some(Ins::Sltu),
            (0x00, 4) => Some(Ins::Xor),
            (0x00, 5) => Some(Ins::Srl),
            (0x00, 6) => Some(Ins::Or),
            (0x00, 7) => Some(Ins::And),
            (0x01, 0) => Some(Ins::Mul),
            (0x01, 1) => Some(Ins::Mulh),
            (0x01, 2) => Some(Ins::Mulhsu),
            (0x01, 3) => Some(Ins::Mulhu),
            (0x01, 4) => Some(Ins::Div),
            (0x01, 5) => Some(Ins::Divu),
            (0x01, 6) => Some(Ins::Rem),
            (0x01, 7) => Some(Ins::Remu),
            (0x20, 0) => Some(Ins::Sub),
            (0x20, 5) => Some(Ins::Sra),
            _ => None,
        }
    }

    fn op_32(self) -> Option<Ins>
        ensures { result ≡ ins_with (record self { opcode = OP_32 }) }
    {
        match (self.funct7, self.funct3) {
            (0x00, 0) => Some(Ins::Addw),
            (0x00, 1) => Some(Ins::Sllw),
            (0x00, 5) => Some(Ins::Srlw),
            (0x01, 0) => Some(Ins::Mulw),
            (0x01, 4) => Some(Ins::Divw),
            (0x01, 5) => Some(Ins::Divuw),
            (0x01, 6) => Some(Ins::Remw),
            (0x01, 7) => Some(Ins::Remuw),
            (0x20, 0) => Some(Ins::Subw),
            (0x20, 5) => Some(Ins::Sraw),
            _ => None,
        }
    }

    fn branch(self) -> Option<Ins>
        ensures { result ≡ ins_with (record self { opcode = BRANCH }) }
    {
        match self.funct3 {
            0 => Some(Ins::Beq),
            1 => Some(Ins::Bne),
            4 => Some(Ins::Blt),
            5 => Some(Ins::Bge),
            6 => Some(Ins::Bltu),
            7 => Some(Ins::Bgeu),
            _ => None,
        }
    }

    fn system(self) -> Option<Ins>
        ensures { result ≡ ins_with (record self { opcode = SYSTEM }) }
    {
        match self.funct3 {
            0 => self.privileged(),
            1 => Some(Ins::Csrrw),
            2 => Some(Ins::Csrrs),
            3 => Some(Ins::Csrrc),
            5 => Some(Ins::Csrrwi),
            6 => Some(Ins::Csrrsi),
            7 => Some(Ins::Csrrci),
            _ => None,
        }
    }

    fn privileged(self) -> Option<Ins>
        ensures { result ≡ ins_with (record self { opcode = SYSTEM; funct3 = 0 }) }
    {
        match (self.funct7, self.funct12) {
            (0x09, _) => Some(Ins::SfenceVma),
            (_, 0x000) => Some(Ins::Ecall),
            (_, 0x001) => Some(Ins::Ebreak),
            (_, 0x102) => Some(Ins::Sret),
            (_, 0x302) => Some(Ins::Mret),
            _ => None,
        }
    }
}

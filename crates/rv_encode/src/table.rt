//! The table of the instructions, one row for each (RISC-V Unprivileged manual, "RV32/64G Instruction Set
//! Listings").

/// Hands the table to a macro, after the arguments that it is to have: `instruction_table!(consumer(arguments))`.
/// A row has the variant of `Instr`, the mnemonic, the names of the operands in the order of the variant, the
/// format with the fixed fields of the word: opcode, funct3 and funct7, or the whole word, and the form in which
/// assembly text writes the operands.
#[macro_export]
macro_rules! instruction_table {
    ($consumer:ident($($argument:tt)*)) => {
        $consumer! {
            ($($argument)*)
            Lui lui { rd, imm } u_type(0b0110111) upper;
            Auipc auipc { rd, imm } u_type(0b0010111) upper;
            Jal jal { rd, imm } j_type(0b1101111) jump;
            Jalr jalr { rd, rs1, imm } i_type(0b1100111, 0b000) load;
            Beq beq { rs1, rs2, imm } b_type(0b1100011, 0b000) branch;
            Bne bne { rs1, rs2, imm } b_type(0b1100011, 0b001) branch;
            Blt blt { rs1, rs2, imm } b_type(0b1100011, 0b100) branch;
            Bge bge { rs1, rs2, imm } b_type(0b1100011, 0b101) branch;
            Bltu bltu { rs1, rs2, imm } b_type(0b1100011, 0b110) branch;
            Bgeu bgeu { rs1, rs2, imm } b_type(0b1100011, 0b111) branch;
            Lb lb { rd, rs1, imm } i_type(0b0000011, 0b000) load;
            Lh lh { rd, rs1, imm } i_type(0b0000011, 0b001) load;
            Lw lw { rd, rs1, imm } i_type(0b0000011, 0b010) load;
            Lbu lbu { rd, rs1, imm } i_type(0b0000011, 0b100) load;
            Lhu lhu { rd, rs1, imm } i_type(0b0000011, 0b101) load;
            Sb sb { rs1, rs2, imm } s_type(0b0100011, 0b000) store;
            Sh sh { rs1, rs2, imm } s_type(0b0100011, 0b001) store;
            Sw sw { rs1, rs2, imm } s_type(0b0100011, 0b010) store;
            Addi addi { rd, rs1, imm } i_type(0b0010011, 0b000) immediate;
            Slti slti { rd, rs1, imm } i_type(0b0010011, 0b010) immediate;
            Sltiu sltiu { rd, rs1, imm } i_type(0b0010011, 0b011) immediate;
            Xori xori { rd, rs1, imm } i_type(0b0010011, 0b100) immediate;
            Ori ori { rd, rs1, imm } i_type(0b0010011, 0b110) immediate;
            Andi andi { rd, rs1, imm } i_type(0b0010011, 0b111) immediate;
            Slli slli { rd, rs1, shift } shift_type(0b0010011, 0b001, 0b0000000) shift;
            Srli srli { rd, rs1, shift } shift_type(0b0010011, 0b101, 0b0000000) shift;
            Srai srai { rd, rs1, shift } shift_type(0b0010011, 0b101, 0b0100000) shift;
            Add add { rd, rs1, rs2 } r_type(0b0110011, 0b000, 0b0000000) registers;
            Sub sub { rd, rs1, rs2 } r_type(0b0110011, 0b000, 0b0100000) registers;
            Sll sll { rd, rs1, rs2 } r_type(0b0110011, 0b001, 0b0000000) registers;
            Slt slt { rd, rs1, rs2 } r_type(0b0110011, 0b010, 0b0000000) registers;
            Sltu sltu { rd, rs1, rs2 } r_type(0b0110011, 0b011, 0b0000000) registers;
            Xor xor { rd, rs1, rs2 } r_type(0b0110011, 0b100, 0b0000000) registers;
            Srl srl { rd, rs1, rs2 } r_type(0b0110011, 0b101, 0b0000000) registers;
            Sra sra { rd, rs1, rs2 } r_type(0b0110011, 0b101, 0b0100000) registers;
            Or or { rd, rs1, rs2 } r_type(0b0110011, 0b110, 0b0000000) registers;
            And and { rd, rs1, rs2 } r_type(0b0110011, 0b111, 0b0000000) registers;
            Fence fence { rd, rs1, imm } i_type(0b0001111, 0b000) fence;
            Ecall ecall {} fixed(0x00000073) bare;
            Ebreak ebreak {} fixed(0x00100073) bare;
        }
    };
}

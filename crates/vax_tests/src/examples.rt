//! The sources of examples/, and the bytes and the `.bss` that each must give, written down before the assembler was.

pub struct Example {
    pub source: &'static [u8],
    pub bytes: &'static [u8],
    pub bss: u32,
}

pub static EXAMPLES: [Example; 18] = [
    Example {
        source: b"\
            # hi: Writes \"hi\" to standard output, and exits with code 0.\n.word 0\nmoval *$written,r12\nchmk $4\n\
            moval *$code,r12\nchmk $1\n.space 12\nwritten: .long 3\n.long 1\n.long text\n.long 2\ncode: .long 1\n.long 0\n\
            text: .byte 0x68\n.byte 0x69\n",
        bytes: b"\
            \x00\x00\xde\x9f\x20\x00\x00\x00\x5c\xbc\x04\xde\x9f\x30\x00\x00\x00\x5c\xbc\x01\x00\x00\x00\x00\x00\x00\x00\x00\x00\x00\x00\x00\
            \x03\x00\x00\x00\x01\x00\x00\x00\x38\x00\x00\x00\x02\x00\x00\x00\x01\x00\x00\x00\x00\x00\x00\x00\x68\x69",
        bss: 0,
    },
    Example {
        source: b"\
            # auto: Autoincrement across the end of a page: the longword at 0x7fe lies on two pages.\n.bss 2048\n.word 0\n\
            movl i^$0x7fe,r1\nmovl $5,(r1)+\nmovl r1,*$0x404\nmovl i^$0x400,r12\nchmk $1\n",
        bytes: b"\x00\x00\xd0\x8f\xfe\x07\x00\x00\x51\xd0\x05\x81\xd0\x51\x9f\x04\x04\x00\x00\xd0\x8f\x00\x04\x00\x00\x5c\xbc\x01",
        bss: 2048,
    },
    Example {
        source: b"\
            # walk: Changes each of 48 pages, reads the fifteenth of them, and goes on for ever.\n.bss 49152\n.word 0\n\
            movl i^$0x400,r4\nmovl $48,r5\npage: incl (r4)\naddl2 i^$0x400,r4\nsobgtr r5,page\ntstl *$0x3c00\nend: brb end\n",
        bytes: b"\x00\x00\xd0\x8f\x00\x04\x00\x00\x54\xd0\x30\x55\xd6\x64\xc0\x8f\x00\x04\x00\x00\x54\xf5\x55\xf4\xd5\x9f\x00\x3c\x00\x00\x11\xfe",
        bss: 49152,
    },
    Example {
        source: b"\
            # walkx: Changes each of 48 pages, and exits by the longword at 4, which is a part of the code.\n.bss 49152\n\
            .word 0\nmovl i^$0x400,r4\nmovl $48,r5\npage: incl (r4)\naddl2 i^$0x400,r4\nsobgtr r5,page\nchmk $1\n",
        bytes: b"\x00\x00\xd0\x8f\x00\x04\x00\x00\x54\xd0\x30\x55\xd6\x64\xc0\x8f\x00\x04\x00\x00\x54\xf5\x55\xf4\xbc\x01",
        bss: 49152,
    },
    Example {
        source: b"\
            # brk: Grows its data, shrinks it and exits: the system call brk.\n.bss 16384\n.word 0\nmoval *$first,r12\nchmk $17\n\
            moval *$second,r12\nchmk $17\nmoval *$third,r12\nchmk $17\nmoval *$code,r12\nchmk $1\n.space 26\nfirst: .long 1\n\
            .long 0x4800\nsecond: .long 1\n.long 0xc800\nthird: .long 1\n.long 0xc400\ncode: .long 1\n.long 0\n",
        bytes: b"\
            \x00\x00\xde\x9f\x40\x00\x00\x00\x5c\xbc\x11\xde\x9f\x48\x00\x00\x00\x5c\xbc\x11\xde\x9f\x50\x00\x00\x00\x5c\xbc\x11\xde\x9f\x58\
            \x00\x00\x00\x5c\xbc\x01\x00\x00\x00\x00\x00\x00\x00\x00\x00\x00\x00\x00\x00\x00\x00\x00\x00\x00\x00\x00\x00\x00\x00\x00\x00\x00\
            \x01\x00\x00\x00\x00\x48\x00\x00\x01\x00\x00\x00\x00\xc8\x00\x00\x01\x00\x00\x00\x00\xc4\x00\x00\x01\x00\x00\x00\x00\x00\x00\x00",
        bss: 16384,
    },
    Example {
        source: b"\
            # brk2: Asks twice for the same end of its data, and exits.\n.bss 16384\n.word 0\nmoval *$grown,r12\nchmk $17\n\
            chmk $17\nmoval *$code,r12\nchmk $1\n.space 42\ngrown: .long 1\n.long 0xc800\ncode: .long 1\n.long 0\n",
        bytes: b"\
            \x00\x00\xde\x9f\x40\x00\x00\x00\x5c\xbc\x11\xbc\x11\xde\x9f\x48\x00\x00\x00\x5c\xbc\x01\x00\x00\x00\x00\x00\x00\x00\x00\x00\x00\
            \x00\x00\x00\x00\x00\x00\x00\x00\x00\x00\x00\x00\x00\x00\x00\x00\x00\x00\x00\x00\x00\x00\x00\x00\x00\x00\x00\x00\x00\x00\x00\x00\
            \x01\x00\x00\x00\x00\xc8\x00\x00\x01\x00\x00\x00\x00\x00\x00\x00",
        bss: 16384,
    },
    Example {
        source: b"# deep: Clears a longword deep below its stack, which grows so far.\n.word 0\nclrl *$0x7fffe7fc\nchmk $1\n",
        bytes: b"\x00\x00\xd4\x9f\xfc\xe7\xff\x7f\xbc\x01",
        bss: 0,
    },
    Example {
        source: b"# deep2: As deep, with data beside a stack that grows much further.\n.bss 50176\n.word 0\nclrl *$0x7fffa800\nchmk $1\n",
        bytes: b"\x00\x00\xd4\x9f\x00\xa8\xff\x7f\xbc\x01",
        bss: 50176,
    },
    Example {
        source: b"\
            # forky: Forks: the parent and the child write one letter each, \"p\" and \"c\".\n.bss 1024\n.word 0\nchmk $2\n\
            blbs r1,child\nmovb i^$0x70,*$0x400\nbrb write\nchild: movb i^$0x63,*$0x400\nwrite: moval *$written,r12\nchmk $4\n\
            moval *$code,r12\nchmk $1\n.space 5\nwritten: .long 3\n.long 1\n.long 0x400\n.long 1\ncode: .long 1\n.long 0\n",
        bytes: b"\
            \x00\x00\xbc\x02\xe8\x51\x0a\x90\x8f\x70\x9f\x00\x04\x00\x00\x11\x08\x90\x8f\x63\x9f\x00\x04\x00\x00\xde\x9f\x30\x00\x00\x00\x5c\
            \xbc\x04\xde\x9f\x40\x00\x00\x00\x5c\xbc\x01\x00\x00\x00\x00\x00\x03\x00\x00\x00\x01\x00\x00\x00\x00\x04\x00\x00\x01\x00\x00\x00\
            \x01\x00\x00\x00\x00\x00\x00\x00",
        bss: 1024,
    },
    Example {
        source: b"\
            # lendy: Lends its space by vfork: the child changes a letter and exits, then the parent writes it.\n.bss 1024\n\
            .word 0\nchmk i^$66\nblbs r1,child\nmoval *$written,r12\nchmk $4\nbrb exit\nchild: movb i^$0x63,*$0x400\n\
            exit: moval *$code,r12\nchmk $1\n.space 11\nwritten: .long 3\n.long 1\n.long 0x400\n.long 1\ncode: .long 1\n.long 0\n",
        bytes: b"\
            \x00\x00\xbc\x8f\x42\x00\xe8\x51\x0b\xde\x9f\x30\x00\x00\x00\x5c\xbc\x04\x11\x08\x90\x8f\x63\x9f\x00\x04\x00\x00\xde\x9f\x40\x00\
            \x00\x00\x5c\xbc\x01\x00\x00\x00\x00\x00\x00\x00\x00\x00\x00\x00\x03\x00\x00\x00\x01\x00\x00\x00\x00\x04\x00\x00\x01\x00\x00\x00\
            \x01\x00\x00\x00\x00\x00\x00\x00",
        bss: 1024,
    },
    Example {
        source: b"\
            # lendx: Lends its space by vfork: the child runs the image \"big\" by execve.\n.bss 1024\n.word 0\nchmk i^$66\n\
            blbs r1,child\nmoval *$code,r12\nchmk $1\nchild: moval *$run,r12\nchmk $59\nmoval *$code,r12\nchmk $1\n.space 28\n\
            run: .long 3\n.long name\n.long 0\n.long 0\ncode: .long 1\n.long 0\n.space 8\nname: .byte 0x62\n.byte 0x69\n\
            .byte 0x67\n.byte 0\n",
        bytes: b"\
            \x00\x00\xbc\x8f\x42\x00\xe8\x51\x09\xde\x9f\x50\x00\x00\x00\x5c\xbc\x01\xde\x9f\x40\x00\x00\x00\x5c\xbc\x3b\xde\x9f\x50\x00\x00\
            \x00\x5c\xbc\x01\x00\x00\x00\x00\x00\x00\x00\x00\x00\x00\x00\x00\x00\x00\x00\x00\x00\x00\x00\x00\x00\x00\x00\x00\x00\x00\x00\x00\
            \x03\x00\x00\x00\x60\x00\x00\x00\x00\x00\x00\x00\x00\x00\x00\x00\x01\x00\x00\x00\x00\x00\x00\x00\x00\x00\x00\x00\x00\x00\x00\x00\
            \x62\x69\x67\x00",
        bss: 1024,
    },
    Example {
        source: b"# big: No code at all: 65,536 zeros behind an empty text. The image \"huge\" is the same.\n.bss 65536\n",
        bytes: b"",
        bss: 65536,
    },
    Example {
        source: b"\
            # ex: Runs the image \"hi\" by execve.\n.word 0\nmoval *$run,r12\nchmk $59\n.space 21\nrun: .long 3\n.long name\n\
            .long 0\n.long 0\nname: .byte 0x68\n.byte 0x69\n.byte 0\n",
        bytes: b"\
            \x00\x00\xde\x9f\x20\x00\x00\x00\x5c\xbc\x3b\x00\x00\x00\x00\x00\x00\x00\x00\x00\x00\x00\x00\x00\x00\x00\x00\x00\x00\x00\x00\x00\
            \x03\x00\x00\x00\x30\x00\x00\x00\x00\x00\x00\x00\x00\x00\x00\x00\x68\x69\x00",
        bss: 0,
    },
    Example {
        source: b"\
            # ring: Goes three times round 200 pages, changing each, then adds them up and exits with the sum.\n.bss 204800\n\
            .word 0\nmovl $3,r3\nround: movl i^$0x400,r4\nmovl i^$200,r5\nchange: incl (r4)\naddl2 i^$0x400,r4\n\
            sobgtr r5,change\nsobgtr r3,round\nmovl i^$0x400,r4\nmovl i^$200,r5\nclrl r6\nadd: addl2 (r4),r6\naddl2 i^$0x400,r4\n\
            sobgtr r5,add\nmovl r6,*$0x404\nmovl i^$0x400,r12\nchmk $1\n",
        bytes: b"\
            \x00\x00\xd0\x03\x53\xd0\x8f\x00\x04\x00\x00\x54\xd0\x8f\xc8\x00\x00\x00\x55\xd6\x64\xc0\x8f\x00\x04\x00\x00\x54\xf5\x55\xf4\xf5\
            \x53\xe3\xd0\x8f\x00\x04\x00\x00\x54\xd0\x8f\xc8\x00\x00\x00\x55\xd4\x56\xc0\x64\x56\xc0\x8f\x00\x04\x00\x00\x54\xf5\x55\xf3\xd0\
            \x56\x9f\x04\x04\x00\x00\xd0\x8f\x00\x04\x00\x00\x5c\xbc\x01",
        bss: 204800,
    },
    Example {
        source: b"# bomb: Forks for ever.\n.word 0\nfork: chmk $2\nbrb fork\n",
        bytes: b"\x00\x00\xbc\x02\x11\xfc",
        bss: 0,
    },
    Example {
        source: b"\
            # calls: Calls a procedure with one argument, which it returns, and exits with that.\n.bss 1024\n.word 0\npushl $7\n\
            calls $1,*$same\nmovl r0,*$0x404\nmovl i^$0x400,r12\nchmk $1\n.space 5\n\
            # the entry mask of the procedure: it saves r2\nsame: .word 4\nmovl b^4(r12),r0\nmovl r0,r2\nret\n",
        bytes: b"\
            \x00\x00\xdd\x07\xfb\x01\x9f\x20\x00\x00\x00\xd0\x50\x9f\x04\x04\x00\x00\xd0\x8f\x00\x04\x00\x00\x5c\xbc\x01\x00\x00\x00\x00\x00\
            \x04\x00\xd0\xac\x04\x50\xd0\x50\x52\x04",
        bss: 1024,
    },
    Example {
        source: b"\
            # nest: Lends its space by vfork, and the child lends it on: the inner child changes a letter, which the parent writes.\n\
            .bss 1024\n.word 0\nchmk i^$66\nblbs r1,child\nmoval *$written,r12\nchmk $4\nbrb exit\nchild: chmk i^$66\n\
            blbs r1,inner\nbrb exit\ninner: movb i^$0x63,*$0x400\nexit: moval *$code,r12\nchmk $1\n.space 34\nwritten: .long 3\n\
            .long 1\n.long 0x400\n.long 1\ncode: .long 1\n.long 0\n",
        bytes: b"\
            \x00\x00\xbc\x8f\x42\x00\xe8\x51\x0b\xde\x9f\x50\x00\x00\x00\x5c\xbc\x04\x11\x11\xbc\x8f\x42\x00\xe8\x51\x02\x11\x08\x90\x8f\x63\
            \x9f\x00\x04\x00\x00\xde\x9f\x60\x00\x00\x00\x5c\xbc\x01\x00\x00\x00\x00\x00\x00\x00\x00\x00\x00\x00\x00\x00\x00\x00\x00\x00\x00\
            \x00\x00\x00\x00\x00\x00\x00\x00\x00\x00\x00\x00\x00\x00\x00\x00\x03\x00\x00\x00\x01\x00\x00\x00\x00\x04\x00\x00\x01\x00\x00\x00\
            \x01\x00\x00\x00\x00\x00\x00\x00",
        bss: 1024,
    },
    Example {
        source: b"# self: Clears the byte at 8, which is its next instruction.\n.word 0\nclrb *$next\nnext: nop\n",
        bytes: b"\x00\x00\x94\x9f\x08\x00\x00\x00\x01",
        bss: 0,
    },
];

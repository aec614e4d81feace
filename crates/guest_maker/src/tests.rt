//! Guests, compared with those of a model of their own, whose text another assembler made (GNU as 2.40).

use crate::{make_guest, make_hostile};
use guest_input::image::{Image, Start};
use std::test::Fail;

/// The text of the programs that stand as they are, in the guest of 7, in hexadecimal. Each line of the listing has its
/// word in the byte order of text; L(f) is the distance of f from the AUIPC before.
fn fixed_text() -> &'static str {
    // boot, at 0:
    //   17021000  auipc tp,0x100
    //   93122501  slli t0,a0,18
    //   33025200  add tp,tp,t0
    //   17030000  auipc t1,0
    //   13038305  addi t1,t1,L(trap)
    //   73105310  csrrw x0,stvec,t1
    //   13030002  addi t1,x0,32
    //   73104310  csrrw x0,sie,t1
    //   37030100  lui t1,0x10
    //   33016200  add sp,tp,t1
    //   13040000  addi s0,x0,0
    //   37030200  lui t1,0x20
    //   33036200  add t1,tp,t1
    //   23306204  sd t1,64(tp)
    //   97030000  auipc t2,0
    //   9383030d  addi t2,t2,L(blue)
    //   23347204  sd t2,72(tp)
    //   732510c0  csrrs a0,time,x0
    //   13050519  addi a0,a0,400
    //   b7584954  lui a7,0x54495
    //   938858d4  addi a7,a7,-699
    //   13080000  addi a6,x0,0
    //   73000000  ecall
    //   73600110  csrrsi x0,sstatus,2
    //   6f008007  jal x0,red
    // trap, at 100:
    //   130101fd  addi sp,sp,-48
    //   23305100  sd t0,0(sp)
    //   2334a100  sd a0,8(sp)
    //   2338b100  sd a1,16(sp)
    //   233c0101  sd a6,24(sp)
    //   23301103  sd a7,32(sp)
    //   83320208  ld t0,128(tp)
    //   93821200  addi t0,t0,1
    //   23305208  sd t0,128(tp)
    //   732510c0  csrrs a0,time,x0
    //   13050519  addi a0,a0,400
    //   b7584954  lui a7,0x54495
    //   938858d4  addi a7,a7,-699
    //   13080000  addi a6,x0,0
    //   73000000  ecall
    //   83320100  ld t0,0(sp)
    //   03358100  ld a0,8(sp)
    //   83350101  ld a1,16(sp)
    //   03388101  ld a6,24(sp)
    //   83380102  ld a7,32(sp)
    //   13010103  addi sp,sp,48
    //   73002010  sret
    // switch_to, at 188:
    //   23302500  sd sp,0(a0)
    //   23341500  sd ra,8(a0)
    //   23388500  sd s0,16(a0)
    //   03b10500  ld sp,0(a1)
    //   83b08500  ld ra,8(a1)
    //   03b40501  ld s0,16(a1)
    //   67800000  jalr x0,ra,0
    // red, at 216:
    //   ef00d05e  jal ra,f78
    //   ef00405d  jal ra,f31
    //   13052007  addi a0,x0,114
    //   93081000  addi a7,x0,1
    //   73000000  ecall
    //   83320208  ld t0,128(tp)
    //   e38402fe  beq t0,x0,red
    //   23300208  sd x0,128(tp)
    //   13050200  addi a0,tp,0
    //   93050204  addi a1,tp,64
    //   eff0dffb  jal ra,switch_to
    //   6ff05ffd  jal x0,red
    // blue, at 264:
    //   ef10d030  jal ra,f153
    //   ef00104e  jal ra,f73
    //   13052006  addi a0,x0,98
    //   93081000  addi a7,x0,1
    //   73000000  ecall
    //   83320208  ld t0,128(tp)
    //   e38402fe  beq t0,x0,blue
    //   23300208  sd x0,128(tp)
    //   13050204  addi a0,tp,64
    //   93050200  addi a1,tp,0
    //   eff0dff8  jal ra,switch_to
    //   6ff05ffd  jal x0,blue
    "1702100093122501330252001703000013038305731053101303000273104310370301003301620013040000370302003303620023306204970300009383030d23347204732510c013050519b7584954938858d41308000073000000736001106f008007130101fd233051002334a1002338b100233c010123301103833202089382120023305208732510c013050519b7584954938858d413080000730000008332010003358100833501010338810183380102130101037300201023302500233415002338850003b1050083b0850003b4050167800000ef00d05eef00405d13052007930810007300000083320208e38402fe233002081305020093050204eff0dffb6ff05ffdef10d030ef00104e13052006930810007300000083320208e38402fe233002081305020493050200eff0dff86ff05ffd"
}

/// Guests of three numbers, each with its digest: it is over place and size of text, starts of functions, and text.
fn digests() -> [(u64, &'static str); 3] {
    [
        (
            0,
            "c5a53effa51f2c592b3e904d0650a9c5b8c982028f3931e6f7c43adfcd4f8d1c",
        ),
        (
            7,
            "6929c47ddca31d1c149b48d519bca095d94fd7d11423823adcabc9e4f1a05e5d",
        ),
        (
            u64::MAX,
            "41520e4a8fd1eb126aec80e18efa0898e7bdf014bca3fdc830187b24e3e5b857",
        ),
    ]
}

/// Hostile guests of three numbers, each with its digest.
fn hostile_digests() -> [(u64, &'static str); 3] {
    [
        (
            0,
            "5e38cc7738baa38a5de12b1579394523a58e54a4ff9f32d973dabf5322da756f",
        ),
        (
            63,
            "9d37b2cc6a686e7da113b611fc9592021e6a554ff04bdef7f29dffbc461604cc",
        ),
        (
            u64::MAX,
            "9b75eb8e2449c0877225caccc91005b5c24af07b7ccb7a34f2df4d1b6542be80",
        ),
    ]
}

/// Whether the function at a position has this offset and this name.
fn has_function(image: &Image, number: usize, offset: u32, name: &str) -> bool {
    match image.functions.as_slice().get(number) {
        Some(function) => {
            function.at == Start { range: 0, offset } && function.name.as_slice() == name.as_bytes()
        }
        None => false,
    }
}

/// Whether the data part at a position stands at this place and has these bytes.
fn has_part(image: &Image, number: usize, place: u64, bytes: &str) -> bool {
    match image.parts.as_slice().get(number) {
        Some(part) => {
            part.0 == place
                && part.1.written() == bytes.as_bytes()
                && part.1.len() == bytes.len() as u64
        }
        None => false,
    }
}

#[test]
fn fixed_programs_are_assembled(rt: HostRuntime) -> Result<(), Fail> {
    let alloc = rt.alloc();
    let (image, _setup) = make_guest(alloc, 7)?;
    let text = hex::encode(alloc, image.ranges.bytes())?;
    assert!(rt; text.as_str().starts_with(fixed_text()));
    Ok(())
}

#[test]
fn guests_have_the_digests_of_the_model(rt: HostRuntime) -> Result<(), Fail> {
    let alloc = rt.alloc();
    for (seed, want) in digests() {
        let (image, _setup) = make_guest(alloc, seed)?;
        let digest = hex::encode(alloc, image.digest.as_slice())?;
        assert_eq!(rt; digest.as_str(), want, "{seed}");
    }
    Ok(())
}

#[test]
fn functions_stand_in_order(rt: HostRuntime) -> Result<(), Fail> {
    let (image, setup) = make_guest(rt.alloc(), 7)?;
    assert_eq!(rt; image.functions.len(), 205);
    assert!(rt; has_function(&image, 0, 0, "boot"));
    assert!(rt; has_function(&image, 5, 312, "f0"));
    assert!(rt; has_function(&image, 204, 9212, "f199"));
    let hook = setup.hook.ok_or("no hook")?;
    assert!(rt; has_function(&image, 2, hook.offset, "switch_to"));
    Ok(())
}

#[test]
fn tasks_have_their_names_in_memory(rt: HostRuntime) -> Result<(), Fail> {
    let (image, _setup) = make_guest(rt.alloc(), 7)?;
    assert_eq!(rt; image.parts.len(), 4);
    assert!(rt; has_part(&image, 0, 0x8010_0018, "red\0"));
    assert!(rt; has_part(&image, 3, 0x8014_0058, "blue\0"));
    Ok(())
}

#[test]
fn hostile_guests_have_the_digests_of_the_model(rt: HostRuntime) -> Result<(), Fail> {
    let alloc = rt.alloc();
    for (seed, want) in hostile_digests() {
        let (image, _setup) = make_hostile(alloc, seed)?;
        let digest = hex::encode(alloc, image.digest.as_slice())?;
        assert_eq!(rt; digest.as_str(), want, "{seed}");
    }
    Ok(())
}

#[test]
fn hostile_functions_are_named_by_their_halfwords(rt: HostRuntime) -> Result<(), Fail> {
    let (image, _setup) = make_hostile(rt.alloc(), 0)?;
    assert_eq!(rt; image.functions.len(), 268);
    assert!(rt; has_function(&image, 1, 58, "h29"));
    assert!(rt; has_function(&image, 267, 8190, "h4095"));
    Ok(())
}
